//! Places of variables.
ghost use Rattle.std.specs.Prelude.{◌≡◌, ◌==◌};
ghost use Rattle.std.specs.List.{position_or_len};

/// The variable's place among the variables, and their number where it is none of them.
pub(crate) fn place_of(variable: u32, variables: &[u32]) -> usize
    ensures { result ≡ position_or_len (λ other. variable == other) variables.now }
{
    variables
        .iter()
        .position(|other| variable == *other)
        .unwrap_or(variables.len())
}
