//! How a fault of an input text is reported.
ghost use Rattle.std.specs.Prelude.{◌≡◌, IfOk, codes, string_bytes};
ghost use Rattle.spec_text.specs.declared.fault.SpecKind.TheVariants as kind;
ghost use Rattle.calls.specs.FaultText as texts;

use cert_text::{CertFault, CertKind};
use std::alloc::{AllocError, Global};
use timbuk_reader::{LimitName, SpecFault, SpecKind};

/// The line for a fault of a specification: its line, its column and its kind. The only error is running out of memory.
pub(crate) fn fault_line(alloc: Global, fault: SpecFault) -> Result<String, AllocError>
    ensures { IfOk result (λ line. string_bytes line ≡ texts.fault_line fault) }
{
    let SpecFault { kind, line, column } = fault;
    let kind = kind_text(alloc, kind)?;
    format!(in alloc; "Bad specification line {line} column {column}: {kind}\n")
}

/// The name of a kind, and for a limit its name and its number too. The only error is running out of memory.
fn kind_text(alloc: Global, kind: SpecKind) -> Result<String, AllocError>
    ensures { IfOk result (λ text. string_bytes text ≡ texts.kind_text kind) }
{
    let name = match kind {
        SpecKind::Limit(limit) => return limit_text(alloc, limit),
        SpecKind::BadByte => "BadByte",
        SpecKind::OpenComment => "OpenComment",
        SpecKind::OpenText => "OpenText",
        SpecKind::UnknownSection => "UnknownSection",
        SpecKind::NoInitial => "NoInitial",
        SpecKind::WrongArity => "WrongArity",
        SpecKind::Expected => "Expected",
        SpecKind::UnknownName => "UnknownName",
        SpecKind::DoubleName => "DoubleName",
        SpecKind::VariableLeft => "VariableLeft",
        SpecKind::NotLeftLinear => "NotLeftLinear",
        SpecKind::FreeVariable => "FreeVariable",
    };
    String::from_str(alloc, name)
}

/// The name and the number of a limit. The only error is running out of memory.
fn limit_text(alloc: Global, limit: LimitName) -> Result<String, AllocError>
    ensures { IfOk result (λ text. string_bytes text ≡ texts.kind_text (kind.Limit limit)) }
{
    let name = limit_name(limit);
    let number = limit.most();
    format!(in alloc; "Limit {name} {number}")
}

/// The name of a limit.
fn limit_name(limit: LimitName) -> &'static str
    ensures { result.now ≡ texts.limit_name limit }
{
    match limit {
        LimitName::NameBytes => "name-bytes",
        LimitName::Symbols => "symbols",
        LimitName::Declared => "declared",
        LimitName::Arity => "arity",
        LimitName::Nesting => "nesting",
        LimitName::Variables => "variables",
        LimitName::Rules => "rules",
        LimitName::Equations => "equations",
        LimitName::Entries => "entries",
        LimitName::States => "states",
        LimitName::Automata => "automata",
        LimitName::Systems => "systems",
        LimitName::EquationSections => "equation-sections",
        LimitName::Approximations => "approximations",
    }
}

/// The line for a fault of a certificate: its line and its kind. The only error is running out of memory.
pub(crate) fn cert_fault_line(alloc: Global, fault: CertFault) -> Result<String, AllocError>
    ensures { IfOk result (λ line. string_bytes line ≡ texts.cert_fault_line fault) }
{
    let CertFault { kind, line } = fault;
    let name = cert_kind_name(kind);
    format!(in alloc; "Bad certificate line {line}: {name}\n")
}

/// The name of what is wrong with a line.
fn cert_kind_name(kind: CertKind) -> &'static str
    ensures { result.now ≡ texts.cert_kind_text kind }
{
    match kind {
        CertKind::Head => "Head",
        CertKind::NoClaim => "NoClaim",
        CertKind::Line => "Line",
        CertKind::Symbol => "Symbol",
        CertKind::Count => "Count",
        CertKind::State => "State",
        CertKind::Order => "Order",
    }
}
