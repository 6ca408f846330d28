//! Patterns of paths.

ghost use Rattle.std.specs.Prelude.{◌≡◌, ◌≤◌, ◌<◌, ◌==◌, false, length, MatchOption, IfSome};
ghost use Rattle.std.specs.List.{list_all};
ghost use Rattle.desk_patterns.specs.Patterns.{fits};
ghost use Rattle.desk_patterns.specs.Tries.{IsTry, room};

/// Where a pattern is tried again: behind its last `*`, at the next place of the path.
#[derive(Clone, Copy)]
struct Retry {
    pattern: usize,
    path: usize,
}

/// How far a pattern and a path were gone through.
#[derive(Clone, Copy)]
struct Try {
    pattern: usize,
    path: usize,
    retry: Option<Retry>,
}

/// Whether a pattern is made of stars alone.
fn is_stars(pattern: &[u8]) -> bool
    ensures { result ≡ list_all (λ b. b == 42) pattern.now }
{
    pattern.iter().all(|byte| *byte == b'*')
}

/// One step on, where the path goes on; none where the pattern doesn't fit.
fn next_try(pattern: &[u8], path: &[u8], at: Try) -> Option<Try>
    requires tried { IsTry pattern.now path.now at }
    requires goes_on { at.path < length path.now }
    ensures next { MatchOption result (fits pattern.now path.now ≡ false) (IsTry pattern.now path.now) }
    ensures closer { IfSome result (λ next. room pattern.now path.now next < room pattern.now path.now at) }
{
    if at.pattern < pattern.len() {
        let byte = pattern[at.pattern];
        if byte == b'*' {
            return Some(Try {
                pattern: at.pattern + 1,
                path: at.path,
                retry: Some(Retry {
                    pattern: at.pattern + 1,
                    path: at.path,
                }),
            });
        }
        if byte == path[at.path] {
            return Some(Try {
                pattern: at.pattern + 1,
                path: at.path + 1,
                retry: at.retry,
            });
        }
    }
    match at.retry {
        None => None,
        Some(last) => Some(Try {
            pattern: last.pattern,
            path: last.path + 1,
            retry: Some(Retry {
                pattern: last.pattern,
                path: last.path + 1,
            }),
        }),
    }
}

/// Whether a pattern fits a path from its first byte to its last: `*` stands for any bytes, none and `/` included, and
/// every other byte for itself. It takes no memory; at worst it looks at each byte of the path once for each byte of the
/// pattern.
pub fn fits(pattern: &[u8], path: &[u8]) -> bool
    ensures { result ≡ fits pattern.now path.now }
{
    let mut at = Try {
        pattern: 0,
        path: 0,
        retry: None,
    };
    while at.path < path.len() {
        match next_try(pattern, path, at) {
            None => return false,
            Some(next) => at = next,
        }
    }
    is_stars(&pattern[at.pattern..])
}
