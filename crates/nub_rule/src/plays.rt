//! What each kind of step says of the seat before and after: one type for each kind, with the name
//! of its function. No value of these types is ever made.
use crate::rule::Slot;
use crate::uses::{Change, Uses};
use crate::view::View;
use atomic_table::Play;
use std::marker::PhantomData;

/// Takes a spin word.
pub struct TakeSpin;

impl<T, H, W> Play<Slot<T>, View<T, H, W>> for TakeSpin {
    ghost use Rattle.nub_rule.specs.Plays.{take_spin_records};

    ghost then = { take_spin_records };
}

/// Gives a spin word back.
pub struct GiveSpin;

impl<T, H, W> Play<Slot<T>, View<T, H, W>> for GiveSpin {
    ghost use Rattle.nub_rule.specs.Plays.{give_spin_records};

    ghost then = { give_spin_records };
}

/// Makes a thread ready.
pub struct SetReady;

impl<T, H, W> Play<Slot<T>, View<T, H, W>> for SetReady {
    ghost use Rattle.nub_rule.specs.Plays.{set_ready_records};

    ghost then = { set_ready_records };
}

/// Reads the thread's own ready word.
pub struct ReadReady;

impl<T, H, W> Play<Slot<T>, View<T, H, W>> for ReadReady {
    ghost use Rattle.nub_rule.specs.Plays.{read_ready_records};

    ghost then = { read_ready_records };
}

/// Clears the thread's own ready word.
pub struct ClearReady;

impl<T, H, W> Play<Slot<T>, View<T, H, W>> for ClearReady {
    ghost use Rattle.nub_rule.specs.Plays.{clear_ready_records};

    ghost then = { clear_ready_records };
}

/// Reads the length of a queue.
pub struct ReadLength;

impl<T, H, W> Play<Slot<T>, View<T, H, W>> for ReadLength {
    ghost use Rattle.nub_rule.specs.Plays.{read_length_records};

    ghost then = { read_length_records };
}

/// Writes the length of a gate's queue after a push.
pub struct PushGate;

impl<T, H, W> Play<Slot<T>, View<T, H, W>> for PushGate {
    ghost use Rattle.nub_rule.specs.Plays.{push_gate_records};

    ghost then = { push_gate_records };
}

/// Reads the bit after a push.
pub struct TestAgain;

impl<T, H, W> Play<Slot<T>, View<T, H, W>> for TestAgain {
    ghost use Rattle.nub_rule.specs.Plays.{test_again_records};

    ghost then = { test_again_records };
}

/// Writes the length of a queue after its thread has left it.
pub struct TakeOut;

impl<T, H, W> Play<Slot<T>, View<T, H, W>> for TakeOut {
    ghost use Rattle.nub_rule.specs.Plays.{take_out_records};

    ghost then = { take_out_records };
}

/// Writes the length of a gate's queue after its first has left it.
pub struct PopGate;

impl<T, H, W> Play<Slot<T>, View<T, H, W>> for PopGate {
    ghost use Rattle.nub_rule.specs.Plays.{pop_gate_records};

    ghost then = { pop_gate_records };
}

/// Tries the bit of a semaphore by a P.
pub struct TryP;

impl<T, H, W> Play<Slot<T>, View<T, H, W>> for TryP {
    ghost use Rattle.std.specs.Prelude.{false};
    ghost use Rattle.nub_rule.specs.Plays.{p_action, try_p_records};

    ghost then = { try_p_records (p_action false) };
}

/// Tries the bit of a semaphore by a P that an alert may end.
pub struct TryAlertP;

impl<T, H, W> Play<Slot<T>, View<T, H, W>> for TryAlertP {
    ghost use Rattle.std.specs.Prelude.{true};
    ghost use Rattle.nub_rule.specs.Plays.{p_action, try_p_records};

    ghost then = { try_p_records (p_action true) };
}

/// Clears the bit of a semaphore.
pub struct ClearSem;

impl<T, H, W> Play<Slot<T>, View<T, H, W>> for ClearSem {
    ghost use Rattle.nub_rule.specs.Plays.{clear_sem_records};

    ghost then = { clear_sem_records };
}

/// Reads the thread's own alert word.
pub struct ReadAlert;

impl<T, H, W> Play<Slot<T>, View<T, H, W>> for ReadAlert {
    ghost use Rattle.nub_rule.specs.Plays.{read_alert_records};

    ghost then = { read_alert_records };
}

/// Alerts a thread.
pub struct OrAlert;

impl<T, H, W> Play<Slot<T>, View<T, H, W>> for OrAlert {
    ghost use Rattle.nub_rule.specs.Plays.{or_alert_records};

    ghost then = { or_alert_records };
}

/// Clears the thread's own alert word, by an event that says what it was.
pub struct SwapAlert;

impl<T, H, W> Play<Slot<T>, View<T, H, W>> for SwapAlert {
    ghost use Rattle.nub_rule.specs.Plays.{swap_alert_records};

    ghost then = { swap_alert_records };
}

/// Clears the thread's own alert word, to raise out of an alertable wait.
pub struct SwapAlertInRaise;

impl<T, H, W> Play<Slot<T>, View<T, H, W>> for SwapAlertInRaise {
    ghost use Rattle.nub_rule.specs.Plays.{swap_alert_in_raise_records};

    ghost then = { swap_alert_in_raise_records };
}

/// Clears the thread's own alert word, to raise out of a P.
pub struct SwapAlertInP;

impl<T, H, W> Play<Slot<T>, View<T, H, W>> for SwapAlertInP {
    ghost use Rattle.nub_rule.specs.Plays.{swap_alert_in_p_records};

    ghost then = { swap_alert_in_p_records };
}

/// Writes the length of a semaphore's queue after its thread has left it, because of an alert or of
/// a bit that it found clear.
pub struct LeaveSemQueue;

impl<T, H, W> Play<Slot<T>, View<T, H, W>> for LeaveSemQueue {
    ghost use Rattle.nub_rule.specs.Plays.{leave_sem_queue_records};

    ghost then = { leave_sem_queue_records };
}

/// Reads a count to begin a wait.
pub struct LoadCount;

impl<T, H, W> Play<Slot<T>, View<T, H, W>> for LoadCount {
    ghost use Rattle.std.specs.Prelude.{false};
    ghost use Rattle.nub_rule.specs.Plays.{load_count_records};

    ghost then = { load_count_records false };
}

/// Reads a count to begin an alertable wait.
pub struct LoadCountAlertable;

impl<T, H, W> Play<Slot<T>, View<T, H, W>> for LoadCountAlertable {
    ghost use Rattle.std.specs.Prelude.{true};
    ghost use Rattle.nub_rule.specs.Plays.{load_count_records};

    ghost then = { load_count_records true };
}

/// Reads a count under the spin word.
pub struct KnowCount;

impl<T, H, W> Play<Slot<T>, View<T, H, W>> for KnowCount {
    ghost use Rattle.nub_rule.specs.Plays.{know_count_records};

    ghost then = { know_count_records };
}

/// Advances a count by a Signal.
pub struct AdvanceSignal;

impl<T, H, W> Play<Slot<T>, View<T, H, W>> for AdvanceSignal {
    ghost use Rattle.nub_rule.specs.Plays.{advance_records, tail_of, signal_action};

    ghost then = { advance_records tail_of signal_action };
}

/// Advances a count by a Broadcast.
pub struct AdvanceBroadcast;

impl<T, H, W> Play<Slot<T>, View<T, H, W>> for AdvanceBroadcast {
    ghost use Rattle.std.specs.Prelude.{[]};
    ghost use Rattle.nub_rule.specs.Plays.{advance_records, broadcast_action};

    ghost then = { advance_records (λ _. []) broadcast_action };
}

/// Reads a count under the spin word, in a wait.
pub struct CompareCount;

impl<T, H, W> Play<Slot<T>, View<T, H, W>> for CompareCount {
    ghost use Rattle.nub_rule.specs.Plays.{compare_count_records};

    ghost then = { compare_count_records };
}

/// Writes the length of a condition's queue after a push.
pub struct PushCond;

impl<T, H, W> Play<Slot<T>, View<T, H, W>> for PushCond {
    ghost use Rattle.nub_rule.specs.Plays.{push_cond_records};

    ghost then = { push_cond_records };
}

/// Writes the length of a condition's queue after its first has left it.
pub struct PopCond;

impl<T, H, W> Play<Slot<T>, View<T, H, W>> for PopCond {
    ghost use Rattle.nub_rule.specs.Plays.{pop_cond_records};

    ghost then = { pop_cond_records };
}

/// Writes the length of a condition's queue after its thread has left it.
pub struct LeaveCondQueue;

impl<T, H, W> Play<Slot<T>, View<T, H, W>> for LeaveCondQueue {
    ghost use Rattle.nub_rule.specs.Plays.{leave_cond_queue_records};

    ghost then = { leave_cond_queue_records };
}

/// Tries the pen.
pub struct TakePen;

impl<T, H, W> Play<Slot<T>, View<T, H, W>> for TakePen {
    ghost use Rattle.nub_rule.specs.Plays.{take_pen_records};

    ghost then = { take_pen_records };
}

/// Reads the number of the next event.
pub struct ReadNumber;

impl<T, H, W> Play<Slot<T>, View<T, H, W>> for ReadNumber {
    ghost use Rattle.nub_rule.specs.Plays.{read_number_records};

    ghost then = { read_number_records };
}

/// Writes the number of the next event.
pub struct WriteNumber;

impl<T, H, W> Play<Slot<T>, View<T, H, W>> for WriteNumber {
    ghost use Rattle.nub_rule.specs.Plays.{write_number_records};

    ghost then = { write_number_records };
}

/// Raises the waiters count of a condition.
pub struct RaiseWaits;

impl<T, H, W> Play<Slot<T>, View<T, H, W>> for RaiseWaits {
    ghost use Rattle.nub_rule.specs.Plays.{raise_waits_records};

    ghost then = { raise_waits_records };
}

/// Lowers the waiters count of a condition.
pub struct LowerWaits;

impl<T, H, W> Play<Slot<T>, View<T, H, W>> for LowerWaits {
    ghost use Rattle.nub_rule.specs.Plays.{lower_waits_records};

    ghost then = { lower_waits_records };
}

/// Reads the waiters count of a condition in a Signal.
pub struct ReadWaitsSignal;

impl<T, H, W> Play<Slot<T>, View<T, H, W>> for ReadWaitsSignal {
    ghost use Rattle.nub_rule.specs.Plays.{read_waits_records, signal_action};

    ghost then = { read_waits_records signal_action };
}

/// Reads the waiters count of a condition in a Broadcast.
pub struct ReadWaitsBroadcast;

impl<T, H, W> Play<Slot<T>, View<T, H, W>> for ReadWaitsBroadcast {
    ghost use Rattle.nub_rule.specs.Plays.{broadcast_action, read_waits_records};

    ghost then = { read_waits_records broadcast_action };
}

/// Gives the pen back.
pub struct GivePen;

impl<T, H, W> Play<Slot<T>, View<T, H, W>> for GivePen {
    ghost use Rattle.nub_rule.specs.Plays.{give_pen_records};

    ghost then = { give_pen_records };
}

/// Tries the bit of a mutex.
pub struct TryBit<U> {
    marker: PhantomData<U>,
}

impl<U: Uses> Play<Slot<U::Value>, View<U::Value, U::Share, U::World>> for TryBit<U> {
    ghost use Rattle.nub_rule.specs.Plays.{try_bit_records};

    ghost then = { try_bit_records U.fits };
}

/// Clears the bit of a mutex.
pub struct ClearBit<U, C> {
    marker: PhantomData<(U, C)>,
}

impl<U: Uses, C: Change<U>> Play<Slot<U::Value>, View<U::Value, U::Share, U::World>>
    for ClearBit<U, C> {
    ghost use Rattle.nub_rule.specs.Plays.{clear_bit_records};

    ghost then = { clear_bit_records C.after };
}

/// Clears the bit of a mutex in a wait.
pub struct ClearBitInWait<U, C> {
    marker: PhantomData<(U, C)>,
}

impl<U: Uses, C: Change<U>> Play<Slot<U::Value>, View<U::Value, U::Share, U::World>>
    for ClearBitInWait<U, C> {
    ghost use Rattle.nub_rule.specs.Plays.{clear_bit_in_wait_records};

    ghost then = { clear_bit_in_wait_records C.after };
}

/// Tries the bit of a mutex in a wait, without an event.
pub struct TakeBitQuiet<U> {
    marker: PhantomData<U>,
}

impl<U: Uses> Play<Slot<U::Value>, View<U::Value, U::Share, U::World>> for TakeBitQuiet<U> {
    ghost use Rattle.nub_rule.specs.Plays.{take_bit_quiet_records};

    ghost then = { take_bit_quiet_records U.fits };
}

/// Forks a thread.
pub struct ForkLife;

impl<T, H, W> Play<Slot<T>, View<T, H, W>> for ForkLife {
    ghost use Rattle.nub_rule.specs.Plays.{fork_life_records};

    ghost then = { fork_life_records };
}

/// Ends the thread itself.
pub struct EndLife;

impl<T, H, W> Play<Slot<T>, View<T, H, W>> for EndLife {
    ghost use Rattle.nub_rule.specs.Plays.{end_life_records};

    ghost then = { end_life_records };
}

/// Reads whether a thread has ended.
pub struct ReadLife;

impl<T, H, W> Play<Slot<T>, View<T, H, W>> for ReadLife {
    ghost use Rattle.nub_rule.specs.Plays.{read_life_records};

    ghost then = { read_life_records };
}
