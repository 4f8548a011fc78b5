//! The words of the threads package, what each thread knows of them, the rule between any two
//! steps, and each kind of step.
//!
//! Promises: every package keeps the rule of specs/Items.antt between any two steps.
//! `the_rule_says` states it in words over views, words and slots, and that words and views
//! determine the history. Each function here is one kind of step, with its condition on the
//! thread's own view, its event and its change of the view; two more open and close a package.
//! Built on `atomic_table`; threads sleep by `crossbeam_utils`. Nothing is promised about progress,
//! and no call here takes more than one step.
#![tactic(auto)]

mod closing;
mod forked;
pub mod laws;
mod object;
mod opening;
mod package;
mod places;
mod plays;
mod queueing;
mod rule;
mod slot;
mod slots_at_hand;
mod stepping;
mod steps;
mod thread_states;
mod uses;
mod value_slot;
mod view;

pub use closing::{Remains, close_package};
pub use forked::close_forked;
pub use object::{Object, Why};
pub use opening::open_package;
pub use package::{Entry, Package, Stored, Thread};
pub use steps::alert::{
    leave_sem_queue, or_alert, read_alert, swap_alert, swap_alert_in_p, swap_alert_in_raise,
};
pub use steps::cond::{
    advance_broadcast, advance_signal, compare_count, know_count, leave_cond_queue, load_count,
    load_count_alertable,
};
pub use steps::forking::{Body, hand_out, park_for_end, take_right};
pub use steps::life::{end_life, fork_life, read_life};
pub use steps::mutex::{
    clear_bit, clear_bit_in_wait, put_value, take_bit_quiet, take_value, try_bit,
};
pub use steps::pen::{give_pen, next_number, read_number, store_event, take_pen, write_number};
pub use steps::queue::{peek_bit, pop_queue, push_queue, read_length, take_out, test_again};
pub use steps::ready::{clear_ready, park, read_ready, set_ready};
pub use steps::sem::{clear_sem, try_p};
pub use steps::spin::{give_spin, take_spin};
pub use steps::waiters::{lower_waits, raise_waits, read_waits_broadcast, read_waits_signal};
pub use steps::waking::{note_mutex, note_woken, owes_unparking, unpark, unpark_all, unpark_noted};
pub use thread_states::{Ended, Unborn};
pub use uses::{Change, NoChange, Uses};
