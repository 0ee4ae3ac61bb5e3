//! The checker of certificates: the text of a certificate, and whether its pairs prove its claim.
//! It knows neither the elimination of gates nor the words' stages.
#![tactic(auto)]

mod cert_pairs;
mod checking;
mod drivers;
mod fault;
mod form;
mod frame;
mod generator;
mod head;
mod last;
mod laws;
mod line;
mod mono_sum;
mod monomial;
mod multiple;
mod reading;
mod row;
mod running;
mod running_sum;
mod scan;
mod squares;
mod subsets;
mod summand;
mod term_list;
mod term_map;
mod term_sum;
mod text_verdict;
mod waiting;
mod words;

pub use cert_pairs::CertPairs;
pub use checking::CertVerdict;
pub use fault::{CertFault, LineFault};
pub use laws::{one_certificate_or_fault, one_verdict_or_fault, valid_claims_are_outputs};
pub use reading::pairs;
pub use text_verdict::check;
