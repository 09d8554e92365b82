// Numbers and digits, read from the front of a text.
ghost use Rattle.std.specs.Prelude.{◌≡◌, ◌<◌, ◌≤◌, MatchOption, length};

// What is left of a text. (Each function that reads says that the text does not grow: by it `show_calls` ends.)
#[derive(Drop)]
pub struct Reader<'a> {
    pub text: &'a [u8],
}

impl<'a> Reader<'a> {
    // Passes over blanks.
    fn skip_blanks(&mut self)
        ensures { length self.new.text.now ≤ length self.old.text.now }
    {
        let blanks = self.text.iter().take_while(|&&c| c <= b' ').count();
        self.text = &self.text[blanks..];
    }

    // Whether nothing but blanks is left, which are passed over.
    pub(crate) fn is_at_end(&mut self) -> bool
        ensures { length self.new.text.now ≤ length self.old.text.now }
    {
        self.skip_blanks();
        self.text.is_empty()
    }

    // The digit that stands next, if one does.
    fn digit(&mut self) -> Option<u8>
        ensures { MatchOption result (self.new ≡ self.old) (λ d. (d < 10) × (length self.new.text.now < length self.old.text.now)) }
    {
        let (&c, rest) = self.text.split_first()?;
        if !c.is_ascii_digit() {
            return None;
        }
        self.text = rest;
        Some(c - b'0')
    }

    // The number that stands next, behind blanks, and 0 where none does; digits past the nineteenth are passed over.
    // (No Option: a call that is cut short is shown as if zeros stood there, and each reader of a number would say so anew.)
    pub(crate) fn number(&mut self) -> usize
        ensures { length self.new.text.now ≤ length self.old.text.now }
    {
        self.skip_blanks();
        let mut value = 0;
        // the number of the digits so far
        while let Some(d) = self.digit() {
            if value < 1_000_000_000_000_000_000 {
                value = value * 10 + d as usize;
            }
        }
        value
    }

    // The digits that stand next, behind blanks, each as a byte, as far as there is room; and how many they are.
    pub(crate) fn digits(&mut self, bytes: &mut [u8]) -> usize
        ensures left { length self.new.text.now ≤ length self.old.text.now }
        ensures fit { result ≤ length bytes.old }
    {
        self.skip_blanks();
        // the bytes before i are digits
        for i in 0..bytes.len() {
            let Some(d) = self.digit() else {
                return i;
            };
            bytes[i] = d;
        }
        bytes.len()
    }
}
