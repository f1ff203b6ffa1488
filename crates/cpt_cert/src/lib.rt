//! The text of certificates: the lines of its two versions, read and written, and the text of a whole certificate.
#![tactic(auto)]

pub use cpt_cert_form::{CertLine, Claim, Run, Version};
pub use cpt_cert_print::{Cert, cert_len, print_cert};
pub use cpt_cert_read::{
    Lines, are_alone, are_runs, each_has_lines, enough_is_kept, one_reading, read_line, read_pieces,
};
