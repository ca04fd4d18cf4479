//! The view of a seat: what a worker knows of its pool between two steps.
ghost use Rattle.std.specs.Borrow.{ftrue};
ghost use Rattle.std.specs.Prelude.{ℕ, Bool, List, Option};
ghost use Rattle.std.specs.Coded.{coded_bool, coded_list, coded_option, coded_ℕ};
ghost use Rattle.mark_core.specs.Events.{Event, Kind};
ghost use Rattle.buffer_pool.specs.Book.{Book};
ghost use Rattle.buffer_pool.specs.working.Codes.{book_code, event_code, kind_code, log_code};
ghost use Rattle.buffer_pool.specs.WorkerLog.{Log};

use std::marker::{Model, PhantomData};

/// The view of a seat at the pool's table. It has no bytes.
pub struct SeatView {
    marker: PhantomData<()>,
    /// The worker's account, the setup of its pool, and counts of its steps.
    pub ghost book: { Book } by { book_code },
    /// The worker's number, and the steps of all workers up to this worker's last step.
    pub ghost log: { Log } by { log_code },
    /// The splits and joins that the worker made since that step. The log does not have them yet.
    pub ghost unsaid: { List Kind } by { coded_list kind_code },
    /// The story of another worker: the one from which this worker was split, or that was joined to it. Empty if there
    /// is none, or if the log continues that story already.
    pub ghost taken: { List Event } by { coded_list event_code },
    /// The number of that other worker, or `None` if there is none.
    pub ghost from: { Option ℕ } by { coded_option coded_ℕ },
    /// Whether the log has the worker's number. The first worker's log has it from the opening on. If a worker came
    /// from a split, its log has the number from its own first step on.
    pub ghost named: { Bool } by { coded_bool },
    /// The units that the worker is about to give away by a split.
    pub ghost aside: { ℕ } by { coded_ℕ },
    /// One more than the number of the held buffer whose slot is out with the seat, or 0 if no slot is out.
    pub ghost out: { ℕ } by { coded_ℕ },
    /// The value of that buffer's link word.
    pub ghost out_link: { ℕ } by { coded_ℕ },
}

impl Model for SeatView {
    ghost also_owns = { λ _. ftrue };
}
