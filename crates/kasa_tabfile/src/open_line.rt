// A line that isn't ended yet.
ghost use Rattle.std.specs.Prelude.{◌≡◌, ◌∷◌, [], ℕ, List, IfOk, true, false};
ghost use Rattle.kasa_tabfile.specs.Line.{line_of};
ghost use Rattle.kasa_tabfile.specs.Text.{words};
ghost use Rattle.kasa_tabfile.specs.inner.Head.{complete};
ghost use Rattle.kasa_tabfile.specs.inner.OpenLine.{ended_by};

use crate::head::Head;
use crate::line::Line;
use arrayvec::ArrayVec;
use kasa_num::NoMemory;
use std::alloc::Global;
use std::mem;

// The longest word of a line is `65535,65535.65535`.
const LONGEST: usize = 17;

/// What has come of a line: what its words say, and the word that isn't ended.
#[derive(Drop)]
pub(crate) struct OpenLine {
    pub(crate) head: Head,
    pub(crate) word: ArrayVec<u8, LONGEST>,
    pub(crate) is_blank: bool,
}

impl OpenLine {
    pub(crate) fn new() -> OpenLine
        ensures line { (bs : List ℕ) → ended_by result.head result.word.items bs ≡ line_of (words bs) }
        ensures blank { result.is_blank ≡ true }
    {
        OpenLine {
            head: Head::Nothing,
            word: ArrayVec::new(),
            is_blank: true,
        }
    }

    /// Takes the next byte of the line.
    pub(crate) fn push(&mut self, b: u8)
        ensures line { (bs : List ℕ) → ended_by self.new.head self.new.word.items bs
            ≡ ended_by self.old.head self.old.word.items (b ∷ bs) }
        ensures blank { self.new.is_blank ≡ false }
    {
        self.is_blank = false;
        if self.head.is_bad() {
            return;
        }
        if b == b' ' {
            self.end_word();
        } else if self.word.len() < LONGEST {
            self.word.push(b);
        } else {
            self.head = Head::Bad;
        }
    }

    fn end_word(&mut self)
        ensures head { (ws : List (List ℕ)) →
            complete self.new.head ws ≡ complete self.old.head (self.old.word.items ∷ ws) }
        ensures word { self.new.word.items ≡ [] }
        ensures blank { self.new.is_blank ≡ self.old.is_blank }
    {
        let head = mem::replace(&mut self.head, Head::Bad);
        self.head = head.after(self.word.as_slice());
        self.word.clear();
    }

    /// The line that LF has ended. A new one begins.
    pub(crate) fn take(&mut self, alloc: Global) -> Result<Option<Line>, NoMemory>
        ensures ended { IfOk result (λ line. line ≡ ended_by self.old.head self.old.word.items []) }
        ensures line { (bs : List ℕ) → ended_by self.new.head self.new.word.items bs ≡ line_of (words bs) }
        ensures blank { self.new.is_blank ≡ true }
    {
        self.end_word();
        let head = mem::replace(&mut self.head, Head::Nothing);
        self.is_blank = true;
        head.line(alloc)
    }
}
