// A search limit as a caller in C states it: whether there is one, and which.
ghost use Rattle.std.specs.Prelude.{◌≡◌};
ghost use Rattle.juplatsk.specs.Limit.{limit_told};

// stays: C has no Option, so its callers say beside a limit whether there is one
pub(crate) fn search_limit(stated: bool, limit: u32) -> Option<u32>
    ensures { result ≡ limit_told stated limit }
{
    if stated { Some(limit) } else { None }
}
