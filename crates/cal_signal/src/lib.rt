//! The signals of kernel threads: a look at a page gives a whole record that was published, with its
//! place, and none older than the last look gave; or it is busy. Pages carry records from the thread
//! that publishes to one observer or two.
//!
//! A page is a seqlock on `atomic_table`: a version word and a record's words. The version is `2i`
//! while record `i` is the last one, and `2i + 1` while the next one is being written. Publishing
//! and looking wait for nobody, and there are no locks. That is the textbook seqlock; the words of a
//! record, what it may be and the calls in steps are Doranjei's.
//!
//! Not promised: that a look beside a publisher succeeds, or any order between two observers.
#![tactic(auto)]

mod fault;
mod laws;
mod look;
mod observer;
mod open_look;
mod page;
mod publication;
mod publisher;
mod record;
mod rule;
mod shown;
mod view;
mod words;

pub use fault::PublishFault;
pub use laws::looks_follow;
pub use look::{Look, Round, is_busy_pair};
pub use observer::Observer;
pub use open_look::OpenLook;
pub use page::{
    PageEnd, WatchEnd, close_page, close_watched, look_open, open_page, open_watched, read_back,
};
pub use publication::OpenPage;
pub use publisher::{LAST_PLACE, Publisher};
pub use record::{MOST_MISSES, Record, WORDS, later, running_word, shaped};
pub use shown::{Shown, may_follow};
