//! Reads the files of two applications whole, in a room for the bytes of both.

ghost use Rattle.std.specs.Prelude.{All, ◌≡◌, ◌≤◌, ◌-◌, None, IfErr, IfOk, IfSome, IsSome, IsTrue, length, map};
ghost use Rattle.std.specs.Cmp.Lexicographic.{slice_cmp};
ghost use Rattle.std.specs.FinMap as fin;
ghost use Rattle.std.specs.List.Sorted.{IsStrictlySortedBy};
ghost use Rattle.std.specs.Ordering.{nat_cmp};
ghost use Rattle.desk_base.specs.Limits.{file_size};
ghost use Rattle.desk_base.specs.Paths.{full, is_root};
ghost use Rattle.desk_comparison.specs.Answers.{other_answer, source_answer};
ghost use Rattle.desk_comparison.specs.Files.{HasRead, IsRouted, file_in, files_of, path_of, route_in};
ghost use Rattle.desk_comparison.specs.Halts.{HaltsStanding};
ghost use Rattle.desk_comparison.specs.Sizes.{most_both, one_answer, room_answer};
ghost use Rattle.desk_compare.specs.Verdicts.{IsShort, paths_of};
ghost use Rattle.desk_folders.specs.Contents.{bytes_at, file_at, files_below, paths_below};
ghost use Rattle.desk_intake.specs.Halts.{HaltsAt};
ghost use Rattle.desk_intake.specs.Limits.{most_files};

use desk_base::{MAX_FILE_SIZE, Text};
use desk_file::Route;
use desk_folders::{Folders, GenFile};
use desk_intake::{Halt, HasRoute, limit, list_paths, list_routes, read_below, refuse_clash};
use desk_readings::Content;
use desk_report::LimitKind;
use desk_rules::RuleSet;
use std::alloc::Global;

/// A file of the application that is migrated.
#[derive(Debug, Drop)]
pub struct SourceFile {
    /// Its path, its target, and how it is treated.
    pub route: Route,
    /// Its bytes.
    pub content: Content,
}

impl HasRoute for SourceFile {
    ghost along = { λ file. file.route };

    fn route(&self) -> &Route {
        &self.route
    }
}

/// Reads a file whole, and takes its bytes from the room: the answer is `Limit` where it has more than 67,108,864 bytes, and else
/// where the room has none for them.
fn read_one<F: Folders>(
    alloc: Global,
    folders: &mut F,
    root: &Text,
    path: &Text,
    room: &mut u64,
) -> Result<Text, Halt>
    requires there { IfSome (F.told folders.old) (λ m. IsSome (fin.get m (full root.now path.now))) }
    ensures told { F.told folders.new ≡ F.told folders.old }
    ensures text { IfOk result (λ text. IfSome (F.told folders.old) (λ m. text ≡ bytes_at m (full root.now path.now))) }
    ensures fits { IfOk result (λ text. one_answer room.old (record { path = path.now; bytes = text }) ≡ None) }
    ensures room { IfOk result (λ text. room.new ≡ room.old - length text) }
    ensures small { IfOk result (λ text. length text ≤ file_size) }
    ensures err { IfErr result (HaltsAt (λ m. one_answer room.old (file_at root.now m path.now)) (F.told folders.old) (F.faults folders.old) (F.faults folders.new)) }
    ensures counts { F.faults folders.old ≤ F.faults folders.new }
{
    let Some(text) = read_below(alloc, folders, root, path, MAX_FILE_SIZE)? else {
        return Err(limit(LimitKind::FileSize, path.clone()?));
    };
    let size = text.as_bytes().len() as u64;
    if *room < size {
        return Err(limit(LimitKind::Both, path.clone()?));
    }
    *room -= size;
    Ok(text)
}

/// Reads the files of routes in their order.
fn read_routes<F: Folders>(
    alloc: Global,
    folders: &mut F,
    from: &Text,
    routes: Vec<Route>,
    room: &mut u64,
) -> Result<Vec<SourceFile>, Halt>
    requires there { IfSome (F.told folders.old) (λ m. All (λ route. IsSome (fin.get m (full from.now route.path))) routes.items) }
    ensures told { F.told folders.new ≡ F.told folders.old }
    ensures routes { IfOk result (λ files. map route_in files.items ≡ routes.items) }
    ensures read { IfOk result (λ files. IfSome (F.told folders.old) (λ m. HasRead from.now m room.old (map path_of routes.items) (files_of files.items) room.new)) }
    ensures err { IfErr result (HaltsAt (λ m. room_answer room.old (map (file_at from.now m) (map path_of routes.items))) (F.told folders.old) (F.faults folders.old) (F.faults folders.new)) }
    ensures counts { F.faults folders.old ≤ F.faults folders.new }
{
    let mut files = Vec::new(alloc);
    for route in routes {
        let text = read_one(alloc, folders, from, &route.path, room)?;
        files.push(SourceFile {
            route,
            content: Content::new(text),
        })?;
    }
    Ok(files)
}

/// Reads the files at paths in their order.
fn read_paths<F: Folders>(
    alloc: Global,
    folders: &mut F,
    other: &Text,
    paths: Vec<Text>,
    room: &mut u64,
) -> Result<Vec<GenFile>, Halt>
    requires there { IfSome (F.told folders.old) (λ m. All (λ path. IsSome (fin.get m (full other.now path))) paths.items) }
    ensures told { F.told folders.new ≡ F.told folders.old }
    ensures paths { IfOk result (λ files. paths_of files.items ≡ paths.items) }
    ensures short { IfOk result (λ files. All IsShort files.items) }
    ensures read { IfOk result (λ files. IfSome (F.told folders.old) (λ m. HasRead other.now m room.old paths.items (map file_in files.items) room.new)) }
    ensures err { IfErr result (HaltsAt (λ m. room_answer room.old (map (file_at other.now m) paths.items)) (F.told folders.old) (F.faults folders.old) (F.faults folders.new)) }
    ensures counts { F.faults folders.old ≤ F.faults folders.new }
{
    let mut files = Vec::new(alloc);
    for path in paths {
        let content = read_one(alloc, folders, other, &path, room)?;
        files.push(GenFile { path, content })?;
    }
    Ok(files)
}

/// Reads the application that is migrated: the answer is `Limit` where it has too many files, a path or a target is too long, or a
/// file is too large or beyond the room, and else `PathClash` where two targets clash.
pub(crate) fn read_source<F: Folders>(
    alloc: Global,
    folders: &mut F,
    rules: &RuleSet,
    from: &Text,
    room: &mut u64,
) -> Result<Vec<SourceFile>, Halt>
    requires root { IsTrue (is_root from.now) }
    requires room { room.old ≡ most_both }
    ensures told { F.told folders.new ≡ F.told folders.old }
    ensures routed { IfOk result (λ files. All (IsRouted rules.now) files.items) }
    ensures few { IfOk result (λ files. length files.items ≤ most_files) }
    ensures read { IfOk result (λ files. IfSome (F.told folders.old) (λ m. HasRead from.now m room.old (paths_below from.now m) (files_of files.items) room.new)) }
    ensures clear { IfOk result (λ files. IfSome (F.told folders.old) (λ m. source_answer rules.now from.now m ≡ None)) }
    ensures err { IfErr result (HaltsStanding (source_answer rules.now from.now) (F.told folders.old) (F.faults folders.old) (F.faults folders.new)) }
    ensures counts { F.faults folders.old ≤ F.faults folders.new }
{
    let routes = list_routes(alloc, folders, rules, from)?;
    let files = read_routes(alloc, folders, from, routes, room)?;
    refuse_clash(alloc, files.as_slice())?;
    Ok(files)
}

/// Reads the application that the other one is compared with: the answer is `Limit` where it has too many files, a path is too long,
/// or a file is too large or beyond the room.
pub(crate) fn read_other<F: Folders>(
    alloc: Global,
    folders: &mut F,
    other: &Text,
    room: &mut u64,
) -> Result<Vec<GenFile>, Halt>
    requires { IsTrue (is_root other.now) }
    ensures told { F.told folders.new ≡ F.told folders.old }
    ensures rising { IfOk result (λ files. IsStrictlySortedBy (slice_cmp nat_cmp) (paths_of files.items)) }
    ensures short { IfOk result (λ files. All IsShort files.items) }
    ensures read { IfOk result (λ files. IfSome (F.told folders.old) (λ m. map file_in files.items ≡ files_below other.now m)) }
    ensures clear { IfOk result (λ files. IfSome (F.told folders.old) (λ m. other_answer room.old other.now m ≡ None)) }
    ensures err { IfErr result (HaltsStanding (other_answer room.old other.now) (F.told folders.old) (F.faults folders.old) (F.faults folders.new)) }
    ensures counts { F.faults folders.old ≤ F.faults folders.new }
{
    let paths = list_paths(folders, other)?;
    read_paths(alloc, folders, other, paths.into_vec(), room)
}
