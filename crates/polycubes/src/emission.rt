// An entry that was found, on the page.
ghost use Rattle.std.specs.Prelude.{◌≡◌, ◌/◌, length};
ghost use Rattle.definitions.specs.Emission.{emit};
ghost use Rattle.polycubes.specs.Emission.{emitted_of};

// How many entries are still to be skipped, how many were written, and whether a further one is known. (The entries' bytes go beside it: the caller lends
// them, and this is handed back by value. Not `Emission` of `kept`, which may wait for an entry, and stands on the row system.)
#[derive(Clone, Copy)]
pub(crate) struct Emission {
    pub skip: u64,
    pub written: usize,
    pub further: bool,
}

// One entry more: skipped, written behind those before it, or the further one.
pub(crate) fn emit(entry: &[u8; 21], entries: &mut [u8], e: Emission) -> Emission
    ensures { emitted_of result entries.new ≡ emit (length entries.old / 21) (record { answer = entry.now }) (emitted_of e entries.old) }
{
    if e.further {
        return e;
    }
    if 0 < e.skip {
        return Emission {
            skip: e.skip - 1,
            ..e
        };
    }
    if entries.len() / 21 <= e.written {
        return Emission { further: true, ..e };
    }
    let at = e.written * 21;
    entries[at..at + 21].copy_from_slice(entry);
    Emission {
        written: e.written + 1,
        ..e
    }
}
