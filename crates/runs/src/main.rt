// Runs of `pack`, `dlx1` and `catalogue`: what `pack` prints for each file of a list, one after the other, then what `dlx1` prints for each file of another,
// and what `catalogue` prints for each of a third, held to the stored output. A file that is missing and a folder in place of a file make reads that fail.
// Last, a file for each of the three, in ways in which a pipe or a disk may behave (`slow`): what gives or takes little at a time prints what the file gives
// at once; what fails, a refusal or a beginning. Behind each stands how the run ended.
#![tactic(auto)]

mod slow;

use slow::{Failing, Filling, Interrupted, Sipping, Trickling, Unflushed};
use std::fs;
use std::io::{Read, Write};
use streams::{CatalogueRoom, Dlx1Room, Failure, Room};

const LISTED: [&str; 19] = [
    "listing.tray",
    "listing_knuth.tray",
    "no_packing.tray",
    "unfilled_cell.tray",
    "empty_box_unfilled.tray",
    "empty_box_filled.tray",
    "woods.tray",
    "woods_handed.tray",
    "wood_256.tray",
    "empty_layers.tray",
    "side_8.tray",
    "side_9.tray",
    "too_many_links.tray",
    "malformed.tray",
    "16384_bytes.tray",
    "16385_bytes.tray",
    "soma_knuth.tray",
    "missing.tray",
    ".",
];

const TEXTS: [&str; 16] = [
    "listing.tray",
    "listing_knuth.tray",
    "no_packing.tray",
    "unfilled_cell.tray",
    "empty_box_unfilled.tray",
    "empty_box_filled.tray",
    "no_copies.tray",
    "woods.tray",
    "empty_layers.tray",
    "layers_text.tray",
    "side_9.tray",
    "malformed.tray",
    "16385_bytes.tray",
    "soma_knuth.tray",
    "missing.tray",
    ".",
];

const REQUESTS: [&str; 12] = [
    "cells_1.request",
    "cells_2.request",
    "cells_3.request",
    "cells_4.request",
    "cells_5.request",
    "cells_6.request",
    "cells_0.request",
    "cells_7.request",
    "cells_4294967302.request",
    "unended.request",
    "missing.request",
    ".",
];

// A program, by the memory that it works in.
trait Program {
    fn run<R: Read, W: Write>(&mut self, input: &mut R, output: &mut W) -> Result<(), Failure>;
}

impl Program for Room {
    fn run<R: Read, W: Write>(&mut self, input: &mut R, output: &mut W) -> Result<(), Failure> {
        Room::run(self, input, output)
    }
}

impl Program for Dlx1Room {
    fn run<R: Read, W: Write>(&mut self, input: &mut R, output: &mut W) -> Result<(), Failure> {
        Dlx1Room::run(self, input, output)
    }
}

impl Program for CatalogueRoom {
    fn run<R: Read, W: Write>(&mut self, input: &mut R, output: &mut W) -> Result<(), Failure> {
        CatalogueRoom::run(self, input, output)
    }
}

// What a program prints for each file of a list; one that cannot be opened counts as one whose first read fails.
fn list<P: Program>(rt: &HostRuntime, program: &mut P, names: &[&str]) {
    for &name in names {
        let _ = match fs::open(rt, name) {
            Ok(mut file) => program.run(&mut file, &mut rt.stdout()),
            Err(_) => program.run(&mut Failing, &mut rt.stdout()),
        };
    }
}

// How a run ended, on a line of its own.
fn tell(rt: &HostRuntime, ran: Result<(), Failure>) {
    let word = match ran {
        Ok(()) => "whole",
        Err(Failure::Read(_)) => "not read",
        Err(Failure::Write(_)) => "not written",
    };
    let _ = println!(rt; "{word}");
}

// What a program prints for a text that is read at once, in two parts and byte by byte, and by a reader that fails behind the first line.
fn vary_reader<P: Program>(rt: &HostRuntime, program: &mut P, bytes: &[u8]) {
    let mut output = rt.stdout();
    tell(rt, program.run(&mut &bytes[..], &mut output));
    let half = bytes.len() / 2;
    let mut parts = bytes[..half].chain(&bytes[half..]);
    tell(rt, program.run(&mut parts, &mut output));
    tell(rt, program.run(&mut Sipping { left: bytes }, &mut output));
    let mut ends = bytes.iter();
    let first = ends
        .position(|&byte| byte == b'\n')
        .map_or(0, |end| end + 1);
    let mut broken = bytes[..first.min(bytes.len())].chain(Failing);
    tell(rt, program.run(&mut broken, &mut output));
}

// The same text written byte by byte and with interruptions, to a writer that takes twenty bytes and fails, and to one that fails at the end.
fn vary_writer<P: Program>(rt: &HostRuntime, program: &mut P, bytes: &[u8]) {
    let to = &mut rt.stdout();
    tell(rt, program.run(&mut &bytes[..], &mut Trickling { to }));
    let is_next = true;
    let mut interrupted = Interrupted { to, is_next };
    tell(rt, program.run(&mut &bytes[..], &mut interrupted));
    let mut filling = Filling { to, room: 20 };
    tell(rt, program.run(&mut &bytes[..], &mut filling));
    tell(rt, program.run(&mut &bytes[..], &mut Unflushed { to }));
}

// What a program prints for a file in these ways. (Such a file has fewer than 256 bytes.)
fn vary<P: Program>(rt: &HostRuntime, program: &mut P, name: &str) {
    let mut held = [0; 256];
    let Ok(mut file) = fs::open(rt, name) else {
        return;
    };
    let Ok(n) = streams::read_text(&mut file, &mut held) else {
        return;
    };
    vary_reader(rt, program, &held[..n]);
    vary_writer(rt, program, &held[..n]);
}

fn main(rt: HostRuntime) {
    let mut room = Room::new();
    let mut dlx1_room = Dlx1Room::new();
    let mut catalogue_room = CatalogueRoom::new();
    list(&rt, &mut room, &LISTED);
    list(&rt, &mut dlx1_room, &TEXTS);
    list(&rt, &mut catalogue_room, &REQUESTS);
    vary(&rt, &mut room, "in_parts.tray");
    vary(&rt, &mut dlx1_room, "in_parts.tray");
    vary(&rt, &mut catalogue_room, "cells_3.request");
}
