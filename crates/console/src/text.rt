// Text written one piece after another.

// A buffer, of which the bytes ahead of `len` are text.
// Kept: the room that is asked for is that of the piece, or a bound on it, and so no fact of the type.
// Kept: beside `Writer` of `schedule`. This counts bytes and not records, and one struct for both would want a crate below both.
#[derive(Drop)]
pub(crate) struct Text<'a> {
    pub(crate) out: &'a mut [u8],
    pub(crate) len: usize,
}

impl Text<'_> {
    ghost use Rattle.std.specs.Prelude.{length, ◌+◌, ◌≤◌};
    ghost use Rattle.console.specs.Writing.{Wrote, Room};
    ghost use Rattle.console.specs.Lines.{line};

    pub(crate) fn put(&mut self, piece: &[u8])
        requires { Room self.old (length piece.now) }
        ensures { Wrote self.old piece.now self.new }
    {
        let len = self.len;
        let end = len + piece.len();
        self.out[len..end].copy_from_slice(piece);
        self.len = end;
    }

    // A line: a name, a number and a newline.
    // Kept: no `write!`, whose contract says what stands there where it answers Ok, and not that it answers Ok.
    pub(crate) fn line<I: itoa::Integer>(&mut self, name: &[u8], value: I)
        requires name_bound { length name.now ≤ 8 }
        requires value_bound { I.MAX_STR_LEN ≤ 20 }
        requires room { Room self.old 32 }
        ensures wrote { Wrote self.old (line name.now (I.text value)) self.new }
        ensures short { self.new.len ≤ self.old.len + 32 }
    {
        self.put(name);
        self.put(itoa::Buffer::new().format(value).as_bytes());
        self.put(b"\n");
    }
}
