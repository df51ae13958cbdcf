//! The codes of refusals.
ghost use Rattle.std.specs.Prelude.{◌≡◌};
ghost use Rattle.mg_link.specs.Codes.{is_among};

// Whether the code is one of these.
#[tactic(auto, unfolding(crate::specs::Codes::is_among))]
pub fn is_among(code: i32, codes: &[i32]) -> bool
    ensures { result ≡ is_among code codes.now }
{
    codes.contains(&code)
}
