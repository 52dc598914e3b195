//! The fields of a line that a profile reads.

ghost use Rattle.std.specs.Prelude.{◌≡◌, ◌<◌, ◌==◌, [], length};
ghost use Rattle.instance_files.specs.Kept.{with_field};
ghost use Rattle.instance_files.specs.Rows.{field_at};

use std::marker::Model;

/// The fields of a line that are kept: the first five and the last two, all where there are at most seven. No profile
/// reads more, so a line takes no memory, however long it is.
#[derive(Drop)]
pub(crate) struct Fields<'a> {
    list: [&'a [u8]; 7],
    len: usize,
}

impl<'a> Model for Fields<'a> {
    ghost use Rattle.std.specs.Prelude.{List, ℕ, ◌≤◌, take, map};

    ghost Value = { List (List ℕ) };

    ghost view = { λ fields. take fields.len (map (λ field. field.now) fields.list) };

    ghost invariant = { λ fields. fields.len ≤ 7 };
}

impl<'a> Fields<'a> {
    pub fn new() -> Fields<'a>
        ensures { result ≡ [] }
    {
        let none: &'a [u8] = &[];
        Fields {
            list: [none; 7],
            len: 0,
        }
    }

    pub fn len(&self) -> usize
        ensures { result ≡ length self.now }
    {
        self.len
    }

    pub fn is_empty(&self) -> bool
        ensures { result ≡ (length self.now == 0) }
    {
        self.len == 0
    }

    pub fn at(&self, place: usize) -> &'a [u8]
        requires { place < length self.now }
        ensures { result.now ≡ field_at self.now place }
    {
        let list = &self.list;
        list[place]
    }

    /// Keeps one more field of the line.
    pub fn add(&mut self, field: &'a [u8])
        ensures { self.new ≡ with_field self.old field.entry.now }
    {
        if self.len < 7 {
            self.list[self.len] = field;
            self.len += 1;
        } else {
            self.list[5] = self.list[6];
            self.list[6] = field;
        }
    }
}
