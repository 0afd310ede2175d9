//! Files that commands read, and how a command ends.
ghost use Rattle.std.specs.Prelude.{◌≡◌, ◌<◌, ◌∷◌, ◌++◌, IfOk, IfErr, string_bytes};
ghost use Rattle.tim_io.specs.Shelves.{OthersStay};
ghost use Rattle.spec_text.specs.SpecText.{SpecText};
ghost use Rattle.cert_text.specs.Certificates.{CertificateReads};
ghost use Rattle.calls.specs.AnswerText.{line};
ghost use Rattle.calls.specs.Files.{told_by, IsRead, OfFile, Never, Text};
ghost use Rattle.calls.specs.Contents.{OfSpec, OfCert, spec_limit, cert_limit};
ghost use Rattle.calls.specs.Endings.{Ends, ending_of};

use crate::fault_line::{cert_fault_line, fault_line};
use crate::status::Status;
use cert_text::{CertError, Certificate, read_cert};
use ranked_terms::Seq;
use std::alloc::{AllocError, Global};
use ta_core::Spec;
use tim_io::{ReadError, Shelf, read_all};
use timbuk_reader::{SpecError, read_spec};

/// The largest number of bytes of a specification.
const MAX_SPEC: usize = 1048576;

/// The largest number of bytes of a certificate.
const MAX_CERT: usize = 67108864;

/// How a command ends.
#[derive(Drop)]
pub enum Ending {
    /// With this status and its text.
    Told(Status, Seq<u8>),
    /// Memory ran out, and there is nothing to say.
    Memory,
}

/// Reads the specification of a file. Where there is none, the command ends with what is said of the file.
pub fn specification<F: Shelf>(alloc: Global, name: &str, shelf: &mut F) -> Result<Spec, Ending>
    ensures spec { IfOk result (λ spec. (bytes : Text) × IsRead name.now spec_limit
        (told_by (F.left shelf.old) (F.faults shelf.old)) (told_by (F.left shelf.new) (F.faults shelf.new)) bytes
        × SpecText bytes spec) }
    ensures ending { IfErr result (λ e. Ends (OfFile name.now spec_limit (λ bytes. OfSpec bytes (λ spec. Never)))
        (told_by (F.left shelf.old) (F.faults shelf.old)) (told_by (F.left shelf.new) (F.faults shelf.new)) e) }
    ensures others { OthersStay (F.left shelf.old) (F.left shelf.new) name.now }
    ensures other_faults { OthersStay (F.faults shelf.old) (F.faults shelf.new) name.now }
{
    let bytes = match file(alloc, name, MAX_SPEC, shelf) {
        Ok(bytes) => bytes,
        Err(ending) => return Err(ending),
    };
    match read_spec(alloc, bytes.as_slice()) {
        Ok(spec) => Ok(spec),
        Err(SpecError::Fault(fault)) => Err(told(Status::BadSpec, fault_line(alloc, fault))),
        Err(SpecError::Memory) => Err(Ending::Memory),
    }
}

/// Reads the certificate of a file, beside a specification. Where there is none, the command ends with what is said of the
/// file.
pub fn certificate<F: Shelf>(
    alloc: Global,
    spec: &Spec,
    name: &str,
    shelf: &mut F,
) -> Result<Certificate, Ending>
    ensures certificate { IfOk result (λ c. (bytes : Text) × IsRead name.now cert_limit
        (told_by (F.left shelf.old) (F.faults shelf.old)) (told_by (F.left shelf.new) (F.faults shelf.new)) bytes
        × CertificateReads spec.now bytes c) }
    ensures ending { IfErr result (λ e. Ends (OfFile name.now cert_limit (λ bytes. OfCert spec.now bytes (λ c. Never)))
        (told_by (F.left shelf.old) (F.faults shelf.old)) (told_by (F.left shelf.new) (F.faults shelf.new)) e) }
    ensures others { OthersStay (F.left shelf.old) (F.left shelf.new) name.now }
    ensures other_faults { OthersStay (F.faults shelf.old) (F.faults shelf.new) name.now }
{
    let bytes = match file(alloc, name, MAX_CERT, shelf) {
        Ok(bytes) => bytes,
        Err(ending) => return Err(ending),
    };
    match read_cert(alloc, spec, bytes.as_slice()) {
        Ok(certificate) => Ok(certificate),
        Err(CertError::Fault(fault)) => Err(told(Status::BadCert, cert_fault_line(alloc, fault))),
        Err(CertError::Memory) => Err(Ending::Memory),
    }
}

/// Reads the bytes of a file, at most as many as the limit. Else the command ends with what is said of the file.
pub(crate) fn file<F: Shelf>(
    alloc: Global,
    name: &str,
    limit: usize,
    shelf: &mut F,
) -> Result<Seq<u8>, Ending>
    requires { limit < usize.MAX }
    ensures read { IfOk result (λ bytes. IsRead name.now limit
        (told_by (F.left shelf.old) (F.faults shelf.old)) (told_by (F.left shelf.new) (F.faults shelf.new)) bytes) }
    ensures ending { IfErr result (λ e. Ends (OfFile name.now limit (λ bytes. Never))
        (told_by (F.left shelf.old) (F.faults shelf.old)) (told_by (F.left shelf.new) (F.faults shelf.new)) e) }
    ensures others { OthersStay (F.left shelf.old) (F.left shelf.new) name.now }
    ensures other_faults { OthersStay (F.faults shelf.old) (F.faults shelf.new) name.now }
{
    match read_all(alloc, shelf, name, limit) {
        Ok(bytes) => Ok(bytes),
        Err(ReadError::Fault) => Err(told(Status::ReadFault, refusal(alloc, "Cannot read", name))),
        Err(ReadError::TooLong) => Err(told(Status::TooLong, refusal(alloc, "Too long", name))),
        Err(ReadError::Memory) => Err(Ending::Memory),
    }
}

fn refusal(alloc: Global, what: &str, name: &str) -> Result<String, AllocError>
    ensures { IfOk result (λ t. string_bytes t ≡ line (what.now ++ 32 ∷ name.now)) }
{
    Ok(format!(in alloc; "{what} {name}\n")?)
}

/// The end with a line, where there is memory for it.
pub(crate) fn told(status: Status, line: Result<String, AllocError>) -> Ending
    ensures { result ≡ ending_of status line }
{
    match line {
        Ok(line) => Ending::Told(status, Seq::from_vec(line.into_bytes())),
        Err(AllocError) => Ending::Memory,
    }
}
