//! Opening a package.
ghost use Rattle.std.specs.Prelude.{Some, false, ◌≡◌, ◌+◌, ◌<◌, ◌≤◌, []};
ghost use Rattle.std.specs.Prelude.{length, replicate, IfOk, vec_len, vec_capacity};
ghost use Rattle.larch_actions.specs.Layout.{IsLawful};
ghost use Rattle.larch_actions.specs.declared.event.Version.TheVariants.{Two};
ghost use Rattle.nub_rule.specs.declared.rule.Slot.TheVariants.{Value, Queue};
ghost use Rattle.nub_rule.specs.declared.view.Kind.TheVariants.{Root};
ghost use Rattle.nub_rule.specs.Items.{Each, no_queue};
ghost use Rattle.atomic_table.specs.Table.{opening, Splits};
ghost use Rattle.nub_rule.specs.Rule.{IsKept, opening_view, left_view, member_view};
ghost use Rattle.nub_rule.specs.Ends.{AreFirst, firsts, living, opening_slots, first_known};
ghost use Rattle.nub_rule.specs.Places.{most_threads};

use crate::package::{Package, Stored, Thread};
use crate::places::{QUEUES, WORDS, life_word};
use crate::rule::{About, Cut, Kept, Queue, Slot};
use crate::slots_at_hand::Hand;
use crate::steps::waking::Waker;
use crate::uses::Uses;
use crate::view::View;
use atomic_table::{Seat, Shared, Table};
use crossbeam_utils::sync::Parker;
use larch_actions::{Layout, Version};
use std::alloc::{AllocError, Global};
use std::mem;
use std::snapshot::Snapshot;

/// Returns how many threads live at first.
fn first_lives(layout: Layout) -> u32
    ensures { result ≡ living layout.version layout.threads }
{
    match layout.version {
        Version::One => layout.threads,
        Version::Two => 1,
    }
}

/// Returns the words as they are at the start.
fn words(alloc: Global, layout: Layout) -> Result<Vec<u64>, AllocError>
    requires few { layout.threads ≤ most_threads }
    ensures { IfOk result (λ w. AreFirst layout w.items) }
{
    let mut words = vec![in alloc; 0; WORDS]?;
    for t in 0..first_lives(layout) {
        words[life_word(t)] = 1;
    }
    Ok(words)
}

/// Returns the slots of the queues, all empty, in a list with room for `further` more.
fn queue_slots<T: Drop>(alloc: Global, further: u32) -> Result<Vec<Slot<T>>, AllocError>
    ensures { IfOk result (λ s. (s.items ≡ replicate 192 (Queue no_queue)) × (192 + further ≤ vec_capacity s)) }
{
    let mut slots = Vec::with_capacity(alloc, QUEUES + further as usize)?;
    for _i in 0..QUEUES {
        slots.push_reserved(Slot::Queue(Queue::new()));
    }
    Ok(slots)
}

/// Returns a slot for each queue, followed by one for each value.
fn slots_of<T: Drop>(
    alloc: Global,
    mutexes: u32,
    values: Vec<T>,
) -> Result<Vec<Slot<T>>, AllocError>
    requires { length values.items ≡ mutexes }
    ensures { IfOk result (λ s. s.items ≡ opening_slots values.items) }
{
    let mut slots = queue_slots(alloc, mutexes)?;
    for x in values {
        slots.push_reserved(Slot::Value(Some(x)));
    }
    Ok(slots)
}

/// Cuts the seat of the next thread off the first seat.
fn split_off<U: Uses>(
    shared: &Shared<Slot<U::Value>, View<U::Value, U::Share, U::World>, About<U::World>, Kept<U>>,
    root: &mut Seat<Slot<U::Value>, View<U::Value, U::Share, U::World>>,
) -> Seat<Slot<U::Value>, View<U::Value, U::Share, U::World>>
    requires of { root.old.table_id ≡ shared.now.table_id }
    requires inside { 0 < shared.now.table_id.words }
    requires splits { Splits (IsKept shared.now.key.layout shared.now.key.traced shared.now.key.world.value U.begin U.holds)
        root.old.id root.old.me.0 (left_view root.old.me.0) (member_view U.begin root.old.me.0) }
    ensures of { root.new.table_id ≡ root.old.table_id }
    ensures root { root.new.me.0 ≡ left_view root.old.me.0 }
    ensures seat { (result.table_id ≡ root.old.table_id) × (result.me ≡ (member_view U.begin root.old.me.0, [])) }
{
    shared.split_seat::<Cut<U>>(root)
}

/// Cuts the thread with this number off the first seat, and gives it this room.
fn cut<U: Uses>(
    alloc: Global,
    p: &Package<U>,
    root: &mut Seat<Slot<U::Value>, View<U::Value, U::Share, U::World>>,
    number: u32,
    parker: Parker,
    room: &mut Vec<U::Value>,
) -> Thread<U>
    requires of { root.old.table_id ≡ p.now.table_id }
    requires root { root.old.me.0.kind ≡ Root }
    requires next { (root.old.me.0.next ≡ number) × (number < p.now.layout.threads) }
    requires world { root.old.me.0.world ≡ Some p.now.world }
    requires version { root.old.me.0.part.version ≡ p.now.layout.version }
    requires empty { room.old.items ≡ [] }
    requires room { number ≡ 0 → p.now.layout.mutexes ≤ vec_capacity room.old }
    ensures of { root.new.table_id ≡ root.old.table_id }
    ensures root { root.new.me.0 ≡ left_view root.old.me.0 }
    ensures empty { room.new.items ≡ [] }
    ensures thread { result ≡ first_known root.old.table_id p.now.layout.version p.now.world U.begin number }
{
    let seat = split_off(&p.table.shared, root);
    let hand = Hand::new();
    let entries = Vec::new(alloc);
    let none = Vec::new(alloc);
    let own = mem::replace(room, none);
    Thread {
        number,
        hand,
        seat,
        entries,
        lost: false,
        next: 0,
        parker,
        later: Queue::new(),
        spin_tallies: 0,
        room: own,
    }
}

/// Cuts off all threads, in order of their numbers, into a list that has room.
fn cut_all<U: Uses>(
    alloc: Global,
    p: &Package<U>,
    mut root: Seat<Slot<U::Value>, View<U::Value, U::Share, U::World>>,
    parkers: Vec<Parker>,
    mut room: Vec<U::Value>,
    mut threads: Vec<Thread<U>>,
) -> Vec<Thread<U>>
    requires of { root.table_id ≡ p.now.table_id }
    requires root { (root.me.0.kind ≡ Root) × (root.me.0.next ≡ 0) }
    requires world { root.me.0.world ≡ Some p.now.world }
    requires version { root.me.0.part.version ≡ p.now.layout.version }
    requires parkers { length parkers.items ≡ p.now.layout.threads }
    requires room { (room.items ≡ []) × (p.now.layout.mutexes ≤ vec_capacity room) }
    requires threads { (threads.items ≡ []) × (p.now.layout.threads ≤ vec_capacity threads) }
    ensures count { length result.items ≡ p.now.layout.threads }
    ensures threads { Each (λ n t. t ≡ first_known p.now.table_id p.now.layout.version p.now.world U.begin n) result.items }
{
    let mut number = 0;
    for parker in parkers {
        threads.push_reserved(cut(alloc, p, &mut root, number, parker, &mut room));
        number += 1;
    }
    drop(root);
    threads
}

/// Makes a parker, and its other end.
fn parker_of(alloc: Global) -> Result<(Parker, Waker), AllocError> {
    let parker = Parker::new(alloc)?;
    let waker = Waker::new(parker.unparker().clone()?);
    Ok((parker, waker))
}

/// Makes `count` parkers, and the other end of each.
fn parkers_of(alloc: Global, count: u32) -> Result<(Vec<Parker>, Vec<Waker>), AllocError>
    ensures { IfOk result (λ o. (length o.0.items ≡ count) × (vec_len o.1 ≡ count)) }
{
    let mut parkers = Vec::with_capacity(alloc, count as usize)?;
    let mut unparkers = Vec::with_capacity(alloc, count as usize)?;
    for _i in 0..count {
        let (parker, waker) = parker_of(alloc)?;
        parkers.push_reserved(parker);
        unparkers.push_reserved(waker);
    }
    Ok((parkers, unparkers))
}

/// The parts of a package and its threads beside the table.
struct Means<R, T> {
    threads: Vec<R>,
    parkers: Vec<Parker>,
    unparkers: Vec<Waker>,
    room: Vec<T>,
    shelf: Vec<Stored>,
}

/// Allocates these parts. Fails only if there is no memory.
fn means_of<R: Drop, T: Drop>(alloc: Global, layout: Layout) -> Result<Means<R, T>, AllocError>
    ensures { IfOk result (λ m. (m.threads.items ≡ []) × (layout.threads ≤ vec_capacity m.threads)
        × (length m.parkers.items ≡ layout.threads)
        × (vec_len m.unparkers ≡ layout.threads) × (m.room.items ≡ []) × (layout.mutexes ≤ vec_capacity m.room) × (m.shelf.items ≡ [])
        × (layout.threads ≤ vec_capacity m.shelf)) }
{
    let threads = Vec::with_capacity(alloc, layout.threads as usize)?;
    let room = Vec::with_capacity(alloc, layout.mutexes as usize)?;
    let shelf = Vec::with_capacity(alloc, layout.threads as usize)?;
    let (parkers, unparkers) = parkers_of(alloc, layout.threads)?;
    Ok(Means {
        threads,
        parkers,
        unparkers,
        room,
        shelf,
    })
}

/// Makes the table and its first seat. Fails only if there is no memory.
fn table_of<U: Uses>(
    alloc: Global,
    words: Vec<u64>,
    slots: Vec<Slot<U::Value>>,
    about: About<U::World>,
) -> Result<
    (
        Table<Slot<U::Value>, View<U::Value, U::Share, U::World>, About<U::World>, Kept<U>, Global>,
        Seat<Slot<U::Value>, View<U::Value, U::Share, U::World>>,
    ),
    AllocError,
>
    requires opens { IsKept about.layout about.traced about.world.value U.begin U.holds
        (opening words.items slots.items (opening_view about.layout.version about.world.value U.begin)) }
    ensures { IfOk result (λ t. (t.0.shared.table_id.words ≡ length words.items) × (t.0.shared.table_id.slots ≡ length slots.items)
        × (t.1.table_id ≡ t.0.shared.table_id) × (t.1.me ≡ (opening_view about.layout.version about.world.value U.begin, []))
        × (t.0.shared.key ≡ about)) }
{
    let Ok(made) = Table::new(alloc, words.as_slice(), slots, &about) else {
        return Err(AllocError);
    };
    Ok(made)
}

/// Opens a package, and returns it with its threads, in order of their numbers. Fails only if there
/// is no memory.
pub fn open_package<U: Uses>(
    alloc: Global,
    layout: Layout,
    world: &U::World,
    values: Vec<U::Value>,
    traced: bool,
) -> Result<(Package<U>, Vec<Thread<U>>), AllocError>
    requires lawful { IsLawful layout }
    requires values { length values.items ≡ layout.mutexes }
    requires holds { U.holds world.now values.items (firsts (U.begin world.now) layout.threads) }
    ensures package { IfOk result (λ o. (o.0.layout ≡ layout) × (o.0.traced ≡ traced) × (o.0.world ≡ world.now)) }
    ensures count { IfOk result (λ o. length o.1.items ≡ layout.threads) }
    ensures threads { IfOk result (λ o. Each (λ n t. t ≡ first_known o.0.table_id layout.version world.now U.begin n) o.1.items) }
{
    let words = words(alloc, layout)?;
    let slots = slots_of(alloc, layout.mutexes, values)?;
    let about = About {
        layout,
        traced,
        world: Snapshot::of(world),
    };
    let (table, root) = table_of::<U>(alloc, words, slots, about)?;
    let Means {
        threads,
        parkers,
        unparkers,
        room,
        shelf,
    } = means_of(alloc, layout)?;
    let package = Package {
        layout,
        traced,
        table,
        unparkers,
        shelf,
    };
    let threads = cut_all(alloc, &package, root, parkers, room, threads);
    Ok((package, threads))
}
