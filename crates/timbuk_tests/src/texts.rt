//! Specifications from their texts.
use ranked_terms::{Seq, Signature};
use std::alloc::Global;
use std::test::Fail;
use ta_core::Spec;
use timbuk_reader::read_spec;
use trs_rules::Rule;

/// The specification that a text spells.
pub fn spec_of(alloc: Global, text: &str) -> Result<Spec, Fail> {
    if text.len() > 1000 {
        return Err("a long text".into());
    }
    let spec = read_spec(alloc, text.as_bytes()).ok().ok_or("refused")?;
    Ok(spec)
}

/// The signature and the rules that a text spells.
pub fn system_of(alloc: Global, text: &str) -> Result<(Signature, Seq<Rule>), Fail> {
    let spec = spec_of(alloc, text)?;
    Ok((spec.signature, spec.rules))
}
