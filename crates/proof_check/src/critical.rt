//! Whether a list of calls is a critical set.

ghost use Rattle.std.specs.Prelude.{◌≡◌, ◌&&◌, ◌≤◌};
ghost use Rattle.std.specs.List.{list_all};
ghost use Rattle.orienteering.specs.Instance.{is_call};
ghost use Rattle.orienteering.specs.Replay.{is_critical_set, rises_above};

/// The most calls that may be critical at once.
const MOST_CRITICAL: usize = 64;

fn rises(critical: &[u32]) -> bool
    ensures { result ≡ rises_above 0 critical.now }
{
    let mut before = 0;
    for call in critical {
        if *call <= before {
            return false;
        }
        before = *call;
    }
    true
}

fn are_calls(n: u32, critical: &[u32]) -> bool
    ensures { result ≡ list_all (is_call n) critical.now }
{
    critical.iter().all(|call| 1 <= *call && *call <= n)
}

/// Whether these are strictly rising calls among n, and not too many.
pub fn is_critical_set(n: u32, critical: &[u32]) -> bool
    ensures { result ≡ is_critical_set n critical.now }
{
    rises(critical) && are_calls(n, critical) && critical.len() <= MOST_CRITICAL
}
