// The part of a lent input buffer that is still to be taken.
ghost use Rattle.std.specs.Prelude.{◌≡◌, ◌+◌, ◌≤◌, false};

// `ended`: no more comes.
#[derive(Clone, Copy)]
pub struct Window {
    pub start: usize,
    pub end: usize,
    pub ended: bool,
    pub ghost ordered: { start ≤ end },
}

impl Window {
    ghost use Rattle.text_stream.specs.Filled.{Behind};

    // The window before anything is read.
    pub fn new() -> Window
        ensures { (result.start ≡ 0) × (result.end ≡ 0) × (result.ended ≡ false) }
    {
        Window {
            start: 0,
            end: 0,
            ended: false,
        }
    }

    // The window behind a record of so many bytes; behind the last, nothing is left and no more comes.
    pub fn behind(self, used: usize, last: bool) -> Window
        requires { self.start + used ≤ self.end }
        ensures end_value { result.end ≡ self.end }
        ensures behind { Behind self used last result }
    {
        Window {
            start: if last { self.end } else { self.start + used },
            end: self.end,
            ended: last || self.ended,
        }
    }
}
