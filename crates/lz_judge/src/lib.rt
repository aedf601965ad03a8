//! Two judges of what a set service leaves after: what a slot file holds, and whether a history with a given order of
//! its calls is that of one set through stops and crashes.
//!
//! The order is Herlihy and Wing's for one life, and that of Izraelevitz, Mendes and Scott over crashes: a history that is
//! found good is proved to be a chain of lives.
#![tactic(auto)]

mod census;
mod finding;
mod flaw;
mod history;
mod judging;
pub mod laws;
mod ledger;
mod limits;
mod line;
mod listing;
mod once;
mod ordering;
mod places;
mod playing;
mod reading;
mod renewing;
mod scan;
mod surveying;

pub use finding::{Finding, Survey};
pub use flaw::Flaw;
pub use history::{History, Point};
pub use judging::judge;
pub use limits::{MAX_PLACE, MOST_BYTES, MOST_CALLS};
pub use once::has_each_key_once;
pub use places::{Keyed, Places};
pub use renewing::{RenewFlaw, compare, renewed};
pub use surveying::{SurveyFault, survey, survey_of};
