// Numbers that are still to be taken: a queue, and of each number whether it stands there.
ghost use Rattle.std.specs.Prelude.{◌≡◌, ◌<◌, ◌≤◌, ℕ, [], ◌∷◌, length, Some, None, IfOk};
ghost use Rattle.kasa_lists.specs.Lists.{Has};
ghost use Rattle.kasa_worklist.specs.Agenda.{Takes, Puts};

use kasa_num::NoMemory;
use std::alloc::Global;
use std::collections::VecDeque;
use std::marker::Model;

// The numbers that were put first are taken first.
#[derive(Drop)]
pub(crate) struct Agenda {
    queue: VecDeque<u32>,
    on: Vec<bool>,
}

impl Model for Agenda {
    ghost use Rattle.std.specs.Prelude.{length};
    ghost use Rattle.kasa_worklist.specs.Agenda.{Waiting, MarksAgree};

    ghost Value = { Waiting };

    ghost view = { λ a. record { numbers = a.queue.items; size = length a.on.items } };

    ghost invariant = { λ a. MarksAgree a.queue.items a.on.items };
}

impl Agenda {
    // All numbers below a size, in order.
    pub(crate) fn full(alloc: Global, size: u32) -> Result<Agenda, NoMemory>
        ensures size { IfOk result (λ agenda. agenda.size ≡ size) }
        ensures all { IfOk result (λ agenda. (k : ℕ) → k < size → Has agenda.numbers k) }
        ensures count { IfOk result (λ agenda. length agenda.numbers ≡ size) }
    {
        let mut queue = VecDeque::new(alloc);
        let mut on = Vec::new(alloc);
        for k in 0..size {
            queue.push_back(k)?;
            on.push(true)?;
        }
        Ok(Agenda { queue, on })
    }

    // Takes the first number.
    pub(crate) fn take(&mut self) -> Option<u32>
        ensures some { (k : ℕ) → result ≡ Some k → Takes k self.old self.new }
        ensures none { result ≡ None → (self.new ≡ self.old) × (self.old.numbers ≡ []) }
    {
        let k = self.queue.pop_front()?;
        self.on[k as usize] = false;
        Some(k)
    }

    // Puts a number behind the others where it isn't there.
    fn put(&mut self, k: u32) -> Result<(), NoMemory>
        requires { k < self.old.size }
        ensures { IfOk result (λ _. Puts (k ∷ []) self.old self.new) }
    {
        if !self.on[k as usize] {
            self.queue.push_back(k)?;
            self.on[k as usize] = true;
        }
        Ok(())
    }

    // The same with some numbers.
    pub(crate) fn put_all(&mut self, numbers: &[u32]) -> Result<(), NoMemory>
        requires { (k : ℕ) → Has numbers.now k → k < self.old.size }
        ensures { IfOk result (λ _. Puts numbers.now self.old self.new) }
    {
        for k in numbers {
            self.put(*k)?;
        }
        Ok(())
    }
}
