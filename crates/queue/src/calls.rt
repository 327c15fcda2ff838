ghost use Rattle.std.specs.Prelude.{◌≡◌, ◌<◌, [], ◌∷◌, ◌++◌, length, IfErr, IsOk, MatchOption, OnErr, OnOk, ◌==◌};
ghost use Rattle.queue.specs.Items.{items, slot_count};

use super::Queue;

impl<'a, T: Copy> Queue<'a, T> {
    pub fn new(slots: &'a mut [T]) -> Queue<'a, T>
        ensures items { items result ≡ [] }
        ensures capacity { slot_count result ≡ length slots.old }
    {
        Queue {
            slots,
            head: 0,
            len: 0,
        }
    }

    pub fn is_empty(&self) -> bool
        ensures { result ≡ (length (items self.now) == 0) }
    {
        self.len == 0
    }

    // Puts x at the end, or hands it back and changes nothing where each slot is taken.
    pub fn push(&mut self, x: T) -> Result<(), T>
        ensures items { OnOk result (items self.new ≡ items self.old ++ (x ∷ [])) }
        ensures full { OnErr result ((length (items self.old) ≡ slot_count self.old) × (items self.new ≡ items self.old)) }
        ensures handed_back { IfErr result (λ y. y ≡ x) }
        ensures succeeds { length (items self.old) < slot_count self.old → IsOk result }
        ensures capacity { slot_count self.new ≡ slot_count self.old }
    {
        let cap = self.slots.len();
        if self.len == cap {
            return Err(x);
        }
        let room = cap - self.head;
        let at = if self.len < room {
            self.head + self.len
        } else {
            self.len - room
        };
        self.slots[at] = x;
        self.len += 1;
        Ok(())
    }

    // Takes the first item away.
    pub fn pop(&mut self) -> Option<T>
        ensures items { MatchOption result ((items self.old ≡ []) × (items self.new ≡ [])) (λ x. items self.old ≡ x ∷ items self.new) }
        ensures capacity { slot_count self.new ≡ slot_count self.old }
    {
        if self.len == 0 {
            return None;
        }
        let at = if self.head == self.slots.len() {
            0
        } else {
            self.head
        };
        let x = self.slots[at];
        self.head = at + 1;
        self.len -= 1;
        Some(x)
    }
}
