//! What closing a package says of its plain buffers, and what the definitions of rings mean.
ghost use Rattle.std.specs.Prelude.{◌≡◌, ◌≢◌, ◌≤◌, ℕ, List, [], false, length, take, true};
ghost use mathlib.Core.Option.{some};
ghost use lib.ListN.{get_elem?};
ghost use Rattle.nub_rule.specs.Known.{Known};
ghost use Rattle.nub.specs.Ended.{KeepsLocks};
ghost use Rattle.bounded_buffer.specs.declared.at.BufferAt.{BufferAt};
ghost use Rattle.bounded_buffer.specs.declared.did.Did.TheVariants.{Put};
ghost use Rattle.bounded_buffer.specs.declared.note.Note.{Note};
ghost use Rattle.bounded_buffer.specs.Closing.{IsSettled};
ghost use Rattle.bounded_buffer.specs.Plain.{BufferRule, IsPlain, Keeps, part_of};
ghost use Rattle.bounded_buffer.specs.Rings.{Does, Held};
ghost use Rattle.bounded_buffer.specs.Using.{Falls, NoneBut, Through, items_of};

/// In a closed package each item that was put was taken once or is left, in order of puts. The
/// premise is the clause of `close_package` on values.
pub fn each_taken_or_left<T>()
    ensures { (threads : List (Known (Held T) (List (Note T)) Prim.Unit)) (values : List (Held T))
        → KeepsLocks Keeps threads values → (m : ℕ) (q : Held T) → get_elem? values m ≡ some q → IsSettled m q threads }
{}

/// Between two calls a ring has no more items than its capacity.
pub fn never_overfull<T>()
    ensures { (values : List (Held T)) (shares : List (List (Note T))) → Keeps values shares
        → (m : ℕ) (q : Held T) → get_elem? values m ≡ some q → length q.items ≤ q.capacity }
{}

/// A put finds room: it leaves no more items in the ring than the capacity.
pub fn puts_within_room<T>()
    ensures { (n : ℕ) (i : T) (q p : Held T) → Does (Put n i) q p → length p.items ≤ p.capacity }
{}

/// The two conditions of a plain buffer are different ones.
pub fn room_is_not_more()
    ensures { (at : BufferAt) → IsPlain at → at.room.0 ≢ at.more.0 }
{}

/// If one thread alone puts and one thread alone takes, the taker has taken a prefix of what was
/// put, in order: as many items as were taken from the ring. The thread i puts and the thread j
/// takes, under rising numbers, as `HasUsed` says of each.
pub fn in_order<T>()
    ensures { (m : ℕ) (q : Held T) (shares : List (List (Note T))) (i j : ℕ) (s r : List (Note T)) → get_elem? shares i ≡ some s
        → get_elem? shares j ≡ some r → Falls (part_of s m).puts → Falls (part_of r m).takes → NoneBut i (λ u. u.puts) [] m shares
        → NoneBut j (λ u. u.takes) [] m shares → BufferRule m q shares
        → items_of (part_of r m).takes ≡ take q.taken (items_of (part_of s m).puts) }
{}

/// If the taker then saw the ring shut and empty, it has taken all that was put, in order, and the
/// ring is shut and empty.
pub fn goes_through<T>()
    ensures { (m : ℕ) (q : Held T) (shares : List (List (Note T))) (i j : ℕ) (s r : List (Note T)) → get_elem? shares i ≡ some s
        → get_elem? shares j ≡ some r → Falls (part_of s m).puts → Falls (part_of r m).takes → NoneBut i (λ u. u.puts) [] m shares
        → NoneBut j (λ u. u.takes) [] m shares → (part_of r m).seen_end ≡ true → BufferRule m q shares
        → Through q (items_of (part_of s m).puts) (items_of (part_of r m).takes) }
{}

/// No put is refused at a ring that no thread has shut.
pub fn not_refused<T>()
    ensures { (m : ℕ) (q : Held T) (shares : List (List (Note T)))
        → ((k : ℕ) (u : List (Note T)) → get_elem? shares k ≡ some u → (part_of u m).shut ≡ false) → BufferRule m q shares
        → (n : ℕ) (s : List (Note T)) → get_elem? shares n ≡ some s → (part_of s m).seen_shut ≡ true → ⊥ }
{}
