//! The class root of a path, and what follows it.

ghost use Rattle.std.specs.Prelude.{◌≡◌, ◌≤◌, ◌∷◌, [], ◌&&◌, length, drop, take};
ghost use Rattle.std.specs.List.{list_all};
ghost use Rattle.desk_base.specs.Names.{is_digit, is_whole, slash};
ghost use Rattle.desk_paths.specs.Paths.{is_archive, has_classes, is_number, ends_root, folder_text, folders, file_name, cut, root_of, rest_of, below};
ghost use Rattle.desk_paths.specs.Kinds.{kind_of};
ghost use Rattle.desk_paths.specs.Walks.{IsStep, IsCutAt, is_service_file, kind_by_texts};

use crate::Kind;
use std::marker::Model;

/// The folder of service files, with the `/` behind it.
const SERVICES: &[u8] = b"META-INF/services/";

/// The folder of the manifest, with the `/` behind it.
const META: &[u8] = b"META-INF/";

const MANIFEST: &[u8] = b"MANIFEST.MF";

const META_INF: &[u8] = b"META-INF";

const VERSIONS: &[u8] = b"versions";

const CLASSES: &[u8] = b"classes";

const WEB_INF: &[u8] = b"WEB-INF";

const BOOT_INF: &[u8] = b"BOOT-INF";

const APP_INF: &[u8] = b"APP-INF";

/// A path, cut at its class root, behind which the folders are those of packages.
#[derive(Clone, Copy, Debug, PartialEq, Eq)]
pub struct Placed<'a> {
    /// The class root, without a `/` at its end; empty where the path has none.
    pub root: &'a [u8],
    /// What follows the class root, without a `/` at its start.
    pub rest: &'a [u8],
    /// What the file is, by the rest of its path.
    pub kind: Kind,
}

/// How far a path was walked.
#[derive(Clone, Copy)]
struct Walk<'a> {
    /// The last folder but one.
    earlier: &'a [u8],
    /// The last folder.
    before: &'a [u8],
    /// Where the rest begins, if no class root ends behind.
    rest_at: usize,
    /// Where the segment behind the last folder begins.
    file_at: usize,
}

/// A path that was cut by one pass over its bytes: behind its class root, and before its file name. Contracts see the path.
#[derive(Debug, Drop)]
pub struct CutPath<'a> {
    pub(crate) path: &'a [u8],
    /// Where the rest begins, behind the `/` of the class root.
    pub(crate) rest_at: usize,
    /// Where the file name begins.
    pub(crate) file_at: usize,
}

impl<'a> Model for CutPath<'a> {
    ghost use Rattle.desk_base.specs.Names.{Text};
    ghost use Rattle.desk_paths.specs.Walks.{IsCutAt};

    ghost Value = { Text };

    ghost view = { λ c. c.path.now };

    ghost invariant = { λ c. IsCutAt c.path.now c.rest_at c.file_at };
}

/// Whether a folder's name is that of an archive.
fn is_archive(folder: &[u8]) -> bool
    ensures { result ≡ is_archive folder.now }
{
    folder.ends_with(b".jar")
        || folder.ends_with(b".war")
        || folder.ends_with(b".ear")
        || folder.ends_with(b".rar")
}

/// Whether `classes` in a folder is a class root.
fn has_classes(folder: &[u8]) -> bool
    ensures { result ≡ has_classes folder.now }
{
    folder == WEB_INF || folder == BOOT_INF || folder == APP_INF
}

/// Whether each byte is a digit.
fn has_digits(text: &[u8]) -> bool
    ensures { result ≡ list_all is_digit text.now }
{
    text.iter().all(|byte| b'0' <= *byte && *byte <= b'9')
}

/// Whether a text is one or more digits.
fn is_number(text: &[u8]) -> bool
    ensures { result ≡ is_number text.now }
{
    !text.is_empty() && has_digits(text)
}

/// Whether a class root ends at a folder that stands behind two others.
fn ends_root(earlier: &[u8], before: &[u8], folder: &[u8]) -> bool
    ensures { result ≡ ends_root earlier.now before.now folder.now }
{
    is_archive(folder)
        || (folder == CLASSES && has_classes(before))
        || (is_number(folder) && before == VERSIONS && earlier == META_INF)
}

impl<'a> Walk<'a> {
    /// Behind a further folder, at the place behind its `/`.
    fn behind(self, folder: &'a [u8], at: usize) -> Walk<'a>
        ensures { IsStep self.entry folder.now at result }
    {
        let ends = ends_root(self.earlier, self.before, folder);
        Walk {
            earlier: self.before,
            before: folder,
            rest_at: if ends { at } else { self.rest_at },
            file_at: at,
        }
    }
}

/// Where the rest and the file name of a path begin: one pass over its bytes.
fn walk_over(path: &[u8]) -> Walk<'_>
    ensures { IsCutAt path.now result.rest_at result.file_at }
{
    let mut walk = Walk {
        earlier: &path[..0],
        before: &path[..0],
        rest_at: 0,
        file_at: 0,
    };
    for (i, byte) in path.iter().enumerate() {
        if *byte == b'/' {
            walk = walk.behind(&path[walk.file_at..i], i + 1);
        }
    }
    walk
}

/// Whether a file is a service file: its folder, with the `/` behind it, is that of service files, and it
/// has a name.
pub(crate) fn is_service_file(folder: &[u8], file: &[u8]) -> bool
    ensures { result ≡ is_service_file folder.now file.now }
{
    folder == SERVICES && !file.is_empty()
}

/// The kind of a file in a folder of a class root, with the `/` behind the folder.
fn kind_in(folder: &[u8], file: &[u8]) -> Kind
    ensures { result ≡ kind_by_texts folder.now file.now }
{
    if is_service_file(folder, file) {
        Kind::Service
    } else if folder == META && file == MANIFEST {
        Kind::Manifest
    } else if file.ends_with(b".class") {
        Kind::Class
    } else {
        Kind::Other
    }
}

impl<'a> CutPath<'a> {
    /// A path, cut. It takes no memory.
    pub fn of(path: &'a [u8]) -> CutPath<'a>
        ensures { result ≡ path.now }
    {
        let walk = walk_over(path);
        CutPath {
            path,
            rest_at: walk.rest_at,
            file_at: walk.file_at,
        }
    }

    /// The class root, without a `/` at its end.
    fn root(&self) -> &'a [u8]
        ensures { result.now ≡ root_of self.now }
    {
        &self.path[..self.rest_at.saturating_sub(1)]
    }

    /// What follows the class root, without a `/` at its start.
    fn rest(&self) -> &'a [u8]
        ensures { result.now ≡ rest_of self.now }
    {
        &self.path[self.rest_at..]
    }

    /// What the file is, by the rest of its path. It takes no memory.
    pub fn kind(&self) -> Kind
        ensures { result ≡ kind_of self.now }
    {
        let path = self.path;
        kind_in(&path[self.rest_at..self.file_at], &path[self.file_at..])
    }
}

/// A path, cut at its class root, with the file's kind. The class root ends at the last folder that
/// ends in `.jar`, `.war`, `.ear` or `.rar`, or is `classes` directly behind `WEB-INF`, `BOOT-INF` or
/// `APP-INF`, or consists of digits directly behind `META-INF/versions`. The file name is never part
/// of it. It takes no memory.
pub fn place(path: &[u8]) -> Placed<'_>
    ensures root { result.root.now ≡ root_of path.now }
    ensures rest { result.rest.now ≡ rest_of path.now }
    ensures kind { result.kind ≡ kind_of path.now }
    ensures joined { path.now ≡ below result.root.now result.rest.now }
{
    let cut = CutPath::of(path);
    Placed {
        root: cut.root(),
        rest: cut.rest(),
        kind: cut.kind(),
    }
}
