//! The text of certificates: what a certificate's text is, and which text has a certificate.
//! `write` gives the text of a certificate, and `read` the certificate of a text, or the text's first fault with its line.
//! Each certificate has one text; a text is read line by line, and no number in it makes room by itself.
#![tactic(auto)]

mod cert;
mod fault;
mod keyword;
pub mod laws;
mod lines;
mod reading;
mod words;
mod writing;

pub use cert::Cert;
pub use fault::{CertFault, CertKind};
pub use reading::read;
pub use writing::write;
