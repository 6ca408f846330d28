//! What becomes of the files of the application that is migrated.

ghost use Rattle.std.specs.Prelude.{All, ◌≡◌, ◌≤◌, ◌∷◌, [], IfErr, IfOk, OnOk, length, map};
ghost use Rattle.std.specs.Cmp.Lexicographic.{slice_cmp};
ghost use Rattle.std.specs.List.Sorted.{IsStrictlySortedBy};
ghost use Rattle.std.specs.Ordering.{nat_cmp};
ghost use Rattle.desk_base.specs.Limits.{file_size};
ghost use Rattle.desk_comparison.specs.Files.{IsNoted, IsRouted, file_of, files_of, source_of};
ghost use Rattle.desk_comparison.specs.Halts.{HaltsMaking};
ghost use Rattle.desk_comparison.specs.Images.{as_file, image_answer, with_image};
ghost use Rattle.desk_comparison.specs.Makings.{MadeBy, MakesOne};
ghost use Rattle.desk_compare.specs.Verdicts.{IsShort, paths_of};
ghost use Rattle.desk_file.specs.Linked.{image_in};

use crate::MAX_BOTH;
use crate::made::Made;
use crate::noting::NotedFile;
use crate::reading::SourceFile;
use desk_base::{MAX_FILE_SIZE, Memory, Text};
use desk_file::{FileFault, Image, migrate_file, outgrows};
use desk_folders::GenFile;
use desk_graph::ClassGraph;
use desk_intake::{Halt, limit};
use desk_report::LimitKind;
use std::alloc::Global;
use std::collections::BTreeMap;

/// Adds what a file becomes: the answer is `Limit` where its image has more than 67,108,864 bytes. The only other halt is want of
/// memory, which also comes for a text whose image would have more than 1,073,741,824. A file that is noted as unchanged is its own
/// image, and isn't read again.
fn make_one(
    alloc: Global,
    graph: &ClassGraph<'_>,
    noted: NotedFile,
    made: &mut Made,
) -> Result<(), Halt>
    requires routed { IsRouted graph.now.rules noted.file }
    requires noted { IsNoted graph.now.rules noted }
    ensures ok { OnOk result (MakesOne graph.now.rules graph.now.defined (file_of noted.file) made.old made.new) }
    ensures err { IfErr result (HaltsMaking (image_answer (image_in graph.now.rules graph.now.defined) (file_of noted.file ∷ []))) }
{
    let NotedFile { file, unchanged } = noted;
    let SourceFile { route, content } = file;
    if unchanged {
        return Ok(made.accept(route.target, content.into_text())?);
    }
    if outgrows(graph.rules(), &route, content.as_bytes(), MAX_BOTH as usize) {
        return Err(Halt::Memory);
    }
    match migrate_file(alloc, graph, &route, content.as_bytes()) {
        Ok(Image { bytes, .. }) => {
            if bytes.as_bytes().len() > MAX_FILE_SIZE {
                return Err(limit(LimitKind::FileSize, route.path));
            }
            made.accept(route.target, bytes)?;
        }
        Err(FileFault::Refused(reason)) => made.refuse(route.path, reason)?,
        Err(FileFault::Memory) => return Err(Halt::Memory),
    }
    Ok(())
}

/// What files become: the answer is `Limit` with the first whose image has more than 67,108,864 bytes. A file is dropped once its
/// image is made.
pub(crate) fn make_images(
    alloc: Global,
    graph: &ClassGraph<'_>,
    files: Vec<NotedFile>,
) -> Result<Made, Halt>
    requires routed { All (IsRouted graph.now.rules) (map source_of files.items) }
    requires noted { All (IsNoted graph.now.rules) files.items }
    ensures ok { IfOk result (MadeBy graph.now.rules graph.now.defined (files_of (map source_of files.items))) }
    ensures err { IfErr result (HaltsMaking (image_answer (image_in graph.now.rules graph.now.defined) (files_of (map source_of files.items)))) }
{
    let mut made = Made::new(alloc);
    for file in files {
        make_one(alloc, graph, file, &mut made)?;
    }
    Ok(made)
}

/// Images as files, in byte order of their targets.
pub(crate) fn list_images(
    alloc: Global,
    images: BTreeMap<Text, Text>,
) -> Result<Vec<GenFile>, Memory>
    requires { All (λ image. length image.1 ≤ file_size) images.entries }
    ensures files { IfOk result (λ files. files.items ≡ map as_file images.entries) }
    ensures rising { IfOk result (λ files. IsStrictlySortedBy (slice_cmp nat_cmp) (paths_of files.items)) }
    ensures short { IfOk result (λ files. All IsShort files.items) }
{
    let mut files = Vec::new(alloc);
    for (path, content) in images {
        files.push(GenFile { path, content })?;
    }
    Ok(files)
}
