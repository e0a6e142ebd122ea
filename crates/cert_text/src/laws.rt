// Laws of the definitions: a text has one answer, and nothing has a second spelling.

ghost use Rattle.std.specs.Prelude.{◌≡◌, ℕ, List, Result};
ghost use Rattle.cert_text.specs.declared.fault.CertFault.{CertFault};
ghost use Rattle.cert_text.specs.declared.fault.CertKind.{CertKind};
ghost use Rattle.cert_text.specs.Certificates.{Certificate, HasSpelling, IsCertificateOf, certificate_text};
ghost use Rattle.cert_text.specs.Faults.{IsFirstFault, IsAnswer};

/// A text has exactly one answer: a certificate, or a first fault.
pub fn one_answer()
    ensures some { (text : List ℕ) → (answer : Result Certificate CertFault) × IsAnswer text answer }
    ensures one { (text : List ℕ) (answer other : Result Certificate CertFault) → IsAnswer text answer → IsAnswer text other
        → answer ≡ other }
{}

/// A text that has a certificate has no fault, and a text with a fault has no certificate.
pub fn not_both()
    ensures { (text : List ℕ) (c : Certificate) (line : ℕ) (kind : CertKind) → IsCertificateOf text c
        → IsFirstFault text line kind → ⊥ }
{}

/// Certificates that can be spelled and have the same text are the same: nothing has a second spelling.
pub fn one_spelling()
    ensures { (c other : Certificate) → HasSpelling c → HasSpelling other → certificate_text c ≡ certificate_text other
        → c ≡ other }
{}
