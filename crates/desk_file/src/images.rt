//! The image of a file.

ghost use Rattle.std.specs.Prelude.{◌≡◌, ◌≤◌, ◌&&◌, Ok, IfOk, IfErr, IsSomeAnd, length, unwrap_or};
ghost use Rattle.desk_base.specs.Limits.{file_size};
ghost use Rattle.desk_file.specs.Faults.{IsFaultOf, IsFileFault, IsManifestFault, IsServiceFault};
ghost use Rattle.desk_file.specs.Linked.{image_in};
ghost use Rattle.desk_file.specs.NewClasses.{IsNewClassOf};
ghost use Rattle.desk_file.specs.Images.{copied, manifest_image, service_image, texts_image};
ghost use Rattle.desk_file.specs.Routes.{IsRouteBy, image_along};
ghost use Rattle.desk_patterns.specs.PatternTexts.{texts_for};
ghost use Rattle.desk_patterns.specs.SeenTexts.{both_seen};
ghost use Rattle.desk_file.specs.Outgrown.{is_text, text_outgrows};

use crate::classes::class_image;
use crate::routes::Route;
use crate::treatments::Treatment;
use desk_base::{Changed, Memory, Text};
use desk_graph::ClassGraph;
use desk_manifest::{ManifestFault, migrate_manifest};
use desk_metainf::{ServiceFault, migrate_service};
use desk_patterns::PathTexts;
use desk_report::{Detail, Reason};
use desk_rules::RuleSet;
use desk_textrules::{TextFault, image_length, migrate_text};
use std::alloc::Global;

/// What a file becomes: its new bytes, and what they are made of.
#[derive(Debug, Drop)]
pub struct Image {
    /// The whole of the target's content.
    pub bytes: Text,
    /// Its kind, with the counts that its line in the report has.
    pub detail: Detail,
}

/// Why a file has no image, or want of memory.
#[derive(Clone, Copy, Debug, PartialEq, Eq)]
pub enum FileFault {
    /// The file has no image, for this reason.
    Refused(Reason),
    /// Memory ran out.
    Memory,
}

impl From<Memory> for FileFault {
    ghost use Rattle.std.specs.Prelude.{◌≡◌};
    ghost use Rattle.desk_file.specs.declared.images.FileFault.TheVariants as fault;

    ghost from_gives = { λ _ it. it ≡ fault.Memory };

    fn from(_: Memory) -> FileFault {
        FileFault::Memory
    }
}

impl From<ServiceFault> for FileFault {
    ghost use Rattle.std.specs.Prelude.{◌≡◌};
    ghost use Rattle.desk_file.specs.Faults.{service_fault};

    ghost from_gives = { λ why fault. fault ≡ service_fault why };

    fn from(why: ServiceFault) -> FileFault {
        match why {
            ServiceFault::BadLine { at } => FileFault::Refused(Reason::BadLine { at }),
            ServiceFault::Memory => FileFault::Memory,
        }
    }
}

impl From<ManifestFault> for FileFault {
    ghost use Rattle.std.specs.Prelude.{◌≡◌};
    ghost use Rattle.desk_file.specs.Faults.{manifest_fault};

    ghost from_gives = { λ why fault. fault ≡ manifest_fault why };

    fn from(why: ManifestFault) -> FileFault {
        match why {
            ManifestFault::BadLine { at } => FileFault::Refused(Reason::BadLine { at }),
            ManifestFault::Memory => FileFault::Memory,
        }
    }
}

impl From<TextFault> for FileFault {
    ghost use Rattle.std.specs.Prelude.{◌≡◌};
    ghost use Rattle.desk_file.specs.Faults.{text_fault};

    ghost from_gives = { λ why fault. fault ≡ text_fault why };

    fn from(why: TextFault) -> FileFault {
        match why {
            TextFault::Unsettled { at } => FileFault::Refused(Reason::Unsettled { at }),
            TextFault::Memory => FileFault::Memory,
        }
    }
}

/// The image of a service file.
fn service_image(alloc: Global, rules: &RuleSet, bytes: &[u8]) -> Result<Image, FileFault>
    requires { length bytes.now ≤ file_size }
    ensures ok { IfOk result (λ found. service_image rules.now bytes.now ≡ Ok found) }
    ensures err { IfErr result (IsServiceFault rules.now bytes.now) }
{
    let Changed { bytes, changed } = migrate_service(alloc, rules, bytes)?;
    Ok(Image {
        bytes,
        detail: Detail::Service { changed },
    })
}

/// The image of a manifest.
fn manifest_image(alloc: Global, rules: &RuleSet, bytes: &[u8]) -> Result<Image, FileFault>
    requires { length bytes.now ≤ file_size }
    ensures ok { IfOk result (λ found. manifest_image rules.now bytes.now ≡ Ok found) }
    ensures err { IfErr result (IsManifestFault rules.now bytes.now) }
{
    let Changed { bytes, changed } = migrate_manifest(alloc, rules, bytes)?;
    Ok(Image {
        bytes,
        detail: Detail::Manifest { changed },
    })
}

/// The image of a file by the text rules of its path and its target, and none where it is copied.
fn texts_image(
    alloc: Global,
    rules: &RuleSet,
    route: &Route,
    bytes: &[u8],
) -> Result<Option<Image>, FileFault>
    requires { length bytes.now ≤ file_size }
    ensures ok { IfOk result (λ found. texts_image (texts_for rules.now.texts route.now.path route.now.target) bytes.now ≡ Ok (unwrap_or found (copied bytes.now))) }
    ensures err { IfErr result (IsFaultOf (texts_image (texts_for rules.now.texts route.now.path route.now.target) bytes.now)) }
{
    let Some(texts) = rules.texts_for(route.path.as_bytes(), route.target.as_bytes()) else {
        return Ok(None);
    };
    let Changed { bytes, changed } = migrate_text(alloc, bytes, texts.here, texts.there)?;
    Ok(Some(Image {
        bytes,
        detail: Detail::Texts { changed },
    }))
}

/// Whether the text rules of a path give a text an image of more than `most` bytes.
fn text_outgrows(texts: Option<PathTexts<'_>>, bytes: &[u8], most: usize) -> bool
    requires { length bytes.now ≤ file_size }
    ensures { result ≡ text_outgrows (both_seen texts.entry) bytes.now most }
{
    match texts {
        Some(texts) => image_length(bytes, texts.here, most).is_none(),
        None => false,
    }
}

/// Whether a file of at most 67,108,864 bytes is a text along its route, and the text rules of its path give it an image of more
/// than `most` bytes. The image is measured, and not made. It takes no memory.
pub fn outgrows(rules: &RuleSet, route: &Route, bytes: &[u8], most: usize) -> bool
    requires { length bytes.now ≤ file_size }
    ensures { result ≡ (is_text route.now.treatment && text_outgrows (texts_for rules.now.texts route.now.path route.now.target) bytes.now most) }
{
    match route.treatment {
        Treatment::Texts => text_outgrows(
            rules.texts_for(route.path.as_bytes(), route.target.as_bytes()),
            bytes,
            most,
        ),
        _ => false,
    }
}

/// The image of a file along its route, and none where it is copied.
fn image_along(
    alloc: Global,
    graph: &ClassGraph<'_>,
    route: &Route,
    bytes: &[u8],
) -> Result<Option<Image>, FileFault>
    requires { length bytes.now ≤ file_size }
    ensures ok { IfOk result (λ found. image_along graph.now.rules graph.now.defined route.now bytes.now ≡ Ok (unwrap_or found (copied bytes.now))) }
    ensures class { IfOk result (λ found. route.now.treatment ≡ Treatment.Class → IsSomeAnd found (λ image. IsNewClassOf graph.now.rules bytes.now image.bytes)) }
    ensures err { IfErr result (IsFaultOf (image_along graph.now.rules graph.now.defined route.now bytes.now)) }
{
    match route.treatment {
        Treatment::Service => Ok(Some(service_image(alloc, graph.rules(), bytes)?)),
        Treatment::Manifest => Ok(Some(manifest_image(alloc, graph.rules(), bytes)?)),
        Treatment::Class => Ok(Some(class_image(alloc, graph, bytes)?)),
        Treatment::Texts => texts_image(alloc, graph.rules(), route, bytes),
        Treatment::UnselectedClass | Treatment::Copy => Ok(None),
    }
}

/// The image of a file along its route.
fn made_along(
    alloc: Global,
    graph: &ClassGraph<'_>,
    route: &Route,
    bytes: &[u8],
) -> Result<Image, FileFault>
    requires { length bytes.now ≤ file_size }
    ensures ok { IfOk result (λ found. image_along graph.now.rules graph.now.defined route.now bytes.now ≡ Ok found) }
    ensures class { IfOk result (λ found. route.now.treatment ≡ Treatment.Class → IsNewClassOf graph.now.rules bytes.now found.bytes) }
    ensures err { IfErr result (IsFaultOf (image_along graph.now.rules graph.now.defined route.now bytes.now)) }
{
    match image_along(alloc, graph, route, bytes)? {
        Some(image) => Ok(image),
        None => Ok(Image {
            bytes: Text::from_bytes(alloc, bytes)?,
            detail: Detail::Copy,
        }),
    }
}

/// The image of a file of at most 67,108,864 bytes along its route, in the application of a graph, under its rules. Along the
/// route that these rules give its path, this is the image of the file. A file that is copied keeps its bytes.
/// A selected class has its new class for its image, which is well-formed and has the renamed tree: it holds the images of the class
/// names that the class holds, and renaming it again changes nothing.
/// `Refused` comes exactly where the file has no image: `Malformed`, `Overlong`, `PoolFull` or `Twins` for a selected class;
/// `BadLine` for a selected service file with a provider that holds a blank, or a selected manifest with a line that is none of
/// a manifest, with the offset of the first byte of the first such line; `Unsettled` for a selected file of another kind whose
/// image the text rules of its target would change again, with the first such place in the image. The only other error is want
/// of memory.
#[tactic(auto, using(crate::proofs::Treating::image_routed))]
pub fn migrate_file(
    alloc: Global,
    graph: &ClassGraph<'_>,
    route: &Route,
    bytes: &[u8],
) -> Result<Image, FileFault>
    requires { length bytes.now ≤ file_size }
    ensures ok { IfOk result (λ found. image_along graph.now.rules graph.now.defined route.now bytes.now ≡ Ok found) }
    ensures class { IfOk result (λ found. route.now.treatment ≡ Treatment.Class → IsNewClassOf graph.now.rules bytes.now found.bytes) }
    ensures err { IfErr result (IsFaultOf (image_along graph.now.rules graph.now.defined route.now bytes.now)) }
    ensures image { IfOk result (λ found. IsRouteBy graph.now.rules route.now → image_in graph.now.rules graph.now.defined route.now.path bytes.now ≡ Ok found) }
    ensures refused { IfErr result (λ fault. IsRouteBy graph.now.rules route.now → IsFileFault graph.now.rules graph.now.defined route.now.path bytes.now fault) }
{
    made_along(alloc, graph, route, bytes)
}
