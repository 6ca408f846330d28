//! Lists the files of the source, with their routes.

ghost use Rattle.std.specs.Prelude.{All, ◌≡◌, ◌≤◌, true, None, length, map, option_map, IfOk, IfErr, IfSome, IsTrue};
ghost use Rattle.std.specs.Cmp.Lexicographic.{slice_cmp};
ghost use Rattle.std.specs.List.{list_all};
ghost use Rattle.std.specs.List.Sorted.{IsStrictlySortedBy};
ghost use Rattle.std.specs.Ordering.{nat_cmp};
ghost use Rattle.desk_base.specs.Paths.{is_root, is_relative_path};
ghost use Rattle.desk_file.specs.Images.{target};
ghost use Rattle.desk_folders.specs.Contents.{paths_below};
ghost use Rattle.desk_intake.specs.Halts.{HaltsAt, HaltsRouting, HaltsWith};
ghost use Rattle.desk_file.specs.Routes.{IsRouteBy, route_of};
ghost use Rattle.desk_intake.specs.Routes.{IsRelativeRoute};
ghost use Rattle.desk_intake.specs.Limits.{first_long, is_short, itself, most_files, paths_answer};

use crate::halts::{Halt, limit};
use crate::{MAX_FILES, MAX_PATH_LENGTH};
use desk_base::{Text, TextList};
use desk_file::{Route, route_of};
use desk_folders::Folders;
use desk_report::LimitKind;
use desk_rules::RuleSet;
use std::alloc::Global;

/// Whether a path is within the limit.
fn is_short(path: &Text) -> bool
    ensures { result ≡ is_short path.now }
{
    path.as_bytes().len() <= MAX_PATH_LENGTH
}

/// The routes of paths, or the first path that is too long.
fn route_all(alloc: Global, rules: &RuleSet, paths: Vec<Text>) -> Result<Vec<Route>, Halt>
    requires { IsTrue (list_all is_relative_path paths.items) }
    ensures routes { IfOk result (λ routes. routes.items ≡ map (route_of rules.now) paths.items) }
    ensures relative { IfOk result (λ routes. All (λ route. IsRelativeRoute route) routes.items) }
    ensures routed { IfOk result (λ routes. All (λ route. IsRouteBy rules.now route) routes.items) }
    ensures short { IfOk result (λ _. first_long (target rules.now) paths.items ≡ None) }
    ensures err { IfErr result (HaltsRouting (target rules.now) paths.items) }
{
    let mut routes = Vec::new(alloc);
    for path in paths {
        let route = route_of(alloc, rules, path)?;
        if !is_short(&route.path) || !is_short(&route.target) {
            return Err(limit(LimitKind::PathLength, route.path));
        }
        routes.push(route)?;
    }
    Ok(routes)
}

/// The routes of the files below the root of the source: the answer is `Limit` where there are more than 200,000, and else where a
/// path or its target has more than 1,024 bytes, with the first such path. The other halts are a fault of the folders and want of
/// memory.
pub fn list_routes<F: Folders>(
    alloc: Global,
    folders: &mut F,
    rules: &RuleSet,
    from: &Text,
) -> Result<Vec<Route>, Halt>
    requires { IsTrue (is_root from.now) }
    ensures told { F.told folders.new ≡ F.told folders.old }
    ensures routes { IfOk result (λ routes. IfSome (F.told folders.old) (λ m. routes.items ≡ map (route_of rules.now) (paths_below from.now m))) }
    ensures relative { IfOk result (λ routes. All (λ route. IsRelativeRoute route) routes.items) }
    ensures routed { IfOk result (λ routes. All (λ route. IsRouteBy rules.now route) routes.items) }
    ensures few { IfOk result (λ routes. length routes.items ≤ most_files) }
    ensures clear { IfOk result (λ _. IfSome (F.told folders.old) (λ m. paths_answer from.now (target rules.now) (paths_below from.now m) ≡ None)) }
    ensures err { IfErr result (HaltsWith (λ m. paths_answer from.now (target rules.now) (paths_below from.now m)) (F.told folders.old) (F.faults folders.old) (F.faults folders.new)) }
    ensures counts { F.faults folders.old ≤ F.faults folders.new }
{
    let paths = folders.list(from, MAX_FILES)?;
    if paths.len() > MAX_FILES as usize {
        return Err(limit(LimitKind::Files, from.clone()?));
    }
    route_all(alloc, rules, paths.into_vec())
}

/// The first path that is too long.
fn first_long(paths: &[Text]) -> Option<&Text>
    ensures { option_map (λ path. path.now) result ≡ first_long itself paths.now }
{
    for path in paths {
        if !is_short(path) {
            return Some(path);
        }
    }
    None
}

/// The paths below a root: the answer is `Limit` where there are more than 200,000, and else where one has more than 1,024 bytes,
/// with the first such path. The other halts are a fault of the folders and want of memory.
pub fn list_paths<F: Folders>(folders: &mut F, from: &Text) -> Result<TextList, Halt>
    requires { IsTrue (is_root from.now) }
    ensures told { F.told folders.new ≡ F.told folders.old }
    ensures paths { IfOk result (λ paths. IfSome (F.told folders.old) (λ m. paths ≡ paths_below from.now m)) }
    ensures rising { IfOk result (λ paths. IsStrictlySortedBy (slice_cmp nat_cmp) paths) }
    ensures few { IfOk result (λ paths. length paths ≤ most_files) }
    ensures clear { IfOk result (λ _. IfSome (F.told folders.old) (λ m. paths_answer from.now itself (paths_below from.now m) ≡ None)) }
    ensures err { IfErr result (HaltsAt (λ m. paths_answer from.now itself (paths_below from.now m)) (F.told folders.old) (F.faults folders.old) (F.faults folders.new)) }
    ensures counts { F.faults folders.old ≤ F.faults folders.new }
{
    let paths = folders.list(from, MAX_FILES)?;
    if paths.len() > MAX_FILES as usize {
        return Err(limit(LimitKind::Files, from.clone()?));
    }
    match first_long(paths.as_slice()) {
        Some(path) => Err(limit(LimitKind::PathLength, path.clone()?)),
        None => Ok(paths),
    }
}
