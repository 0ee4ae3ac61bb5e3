//! What the words of the command line ask for, and what is said where an input is refused: the commands with their operands
//! and options, and the faults, each beside its text.
#![tactic(auto)]

mod certificate_fault;
mod command;
mod composition_fault;
mod fault;
mod file_fault;
mod kind;
mod laws;
mod made_words;
mod netlist_fault;
mod operands;
mod options;
mod shapes;
mod signature_fault;
mod specification_fault;
mod stage_fault;
mod stop;
mod table_text_fault;
mod texts;
mod value_fault;
mod words;

pub use certificate_fault::CertificateFault;
pub use command::{Command, Task, read_words};
pub use composition_fault::CompositionFault;
pub use fault::{Fault, status_of, write_fault};
pub use file_fault::FileFault;
pub use kind::Kind;
pub use laws::each_fault_is_one_line;
pub use made_words::TrialWords;
pub use netlist_fault::{BindingFault, NetlistFault};
pub use signature_fault::SignatureFault;
pub use specification_fault::SpecificationFault;
pub use stage_fault::{StageFault, write_block_stage, write_stage};
pub use stop::Stop;
pub use table_text_fault::TableTextFault;
pub use value_fault::ValueFault;
pub use words::{
    ComposeWords, CyclePairWords, CycleWords, EvalWords, NetWords, PairWords, SimplifyPairWords,
    SimplifyWords,
};
