//! Reading certificates.
ghost use Rattle.std.specs.Prelude.{◌≡◌, ℕ, ◌<◌, ◌⊎◌, length, IfOk, OnOk, Ok, Err};
ghost use Rattle.cert_text.specs.Taking.{IsCounted, verdict};
ghost use Rattle.cert_text.specs.Whole.{IsTakenBehind, IsFaultBehind};
ghost use Rattle.cert_text.specs.declared.certificate.CertError.TheVariants.{Fault, Memory};
ghost use Rattle.cert_text.specs.declared.certificate.CertFault.{CertFault as AFault};
ghost use Rattle.cert_text.specs.declared.certificate.Certificate.{Certificate as ACertificate};
ghost use Rattle.cert_text.specs.Certificates.{CertificateReads};
ghost use Rattle.cert_text.specs.Faults.{CertificateFaultAt};

use crate::certificate::{CertError, Certificate};
use crate::taking::Reader;
use ranked_terms::laws::of_terms_over;
use std::alloc::Global;
use ta_core::Spec;

/// The certificate that the bytes are the text of. `Fault` comes exactly where they are no certificate's text, with the first
/// line at which something is wrong and what; otherwise the only error is want of memory.
pub fn read_cert(alloc: Global, spec: &Spec, bytes: &[u8]) -> Result<Certificate, CertError>
    requires { length bytes.now < 4294967295 }
    ensures reads { IfOk result (λ c. CertificateReads spec.now bytes.now c) }
    ensures fault { (f : AFault) → result ≡ Err (Fault f) → CertificateFaultAt spec.now bytes.now f }

    // The certificate whose text it is, and the first fault, name the answer.
    ensures that_one { (c : ACertificate) → CertificateReads spec.now bytes.now c → (result ≡ Ok c) ⊎ (result ≡ Err Memory) }
    ensures first { (f : AFault) → CertificateFaultAt spec.now bytes.now f → (result ≡ Err (Fault f)) ⊎ (result ≡ Err Memory) }
{
    // For the proof: no two symbols have one name, and terms over a signature with one text are one term.
    let _symbols = spec.signature.len();
    of_terms_over();
    match read_text(alloc, spec, bytes) {
        Ok(certificate) => Ok(certificate),
        Err(error) => Err(error),
    }
}

// The certificate that the bytes are the text of, or the first fault.
fn read_text(alloc: Global, spec: &Spec, bytes: &[u8]) -> Result<Certificate, CertError>
    requires { length bytes.now < 4294967295 }
    ensures reads { IfOk result (λ c. CertificateReads spec.now bytes.now c) }
    ensures fault { (f : AFault) → result ≡ Err (Fault f) → CertificateFaultAt spec.now bytes.now f }
{
    let mut reader = Reader::new(bytes);
    let reaches = match reader.front() {
        Ok(reaches) => reaches,
        Err(error) => return Err(error),
    };
    let read = match reader.behind(alloc, spec, reaches) {
        Ok(read) => read,
        Err(error2) => return Err(error2),
    };
    match reader.over() {
        Ok(()) => Ok(read),
        Err(error3) => Err(error3),
    }
}

impl<'a> Reader<'a> {
    // What stands behind the verdict: whether a forbidden term is reachable.
    fn behind(
        &mut self,
        alloc: Global,
        spec: &Spec,
        reaches: bool,
    ) -> Result<Certificate, CertError>
        requires counted { IsCounted self.old.line self.old.rest.now }
        ensures taken { IfOk result (λ c. IsTakenBehind spec.now
            (verdict reaches) self.old.rest.now self.old.line self.new.rest.now self.new.line c) }
        ensures refused { (f : AFault) → result ≡ Err (Fault f)
            → IsFaultBehind spec.now (verdict reaches) self.old.rest.now self.old.line f }
        ensures counted { OnOk result (IsCounted self.new.line self.new.rest.now) }
    {
        if reaches {
            match self.path(alloc, spec) {
                Ok(certificate) => Ok(certificate),
                Err(error) => Err(error),
            }
        } else {
            match self.claim(alloc, spec) {
                Ok(safe) => Ok(safe),
                Err(wrong) => Err(wrong),
            }
        }
    }
}
