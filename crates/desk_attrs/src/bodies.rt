//! The bodies of the attributes that hold no attributes, from rows and tables of slots where they are no more than that.

ghost use Rattle.std.specs.Prelude.{◌≡◌, ◌≢◌};
ghost use Rattle.desk_format.specs.Attributes.{row_of, inner_attributes};
ghost use Rattle.desk_format.specs.Reading.{read};
ghost use Rattle.desk_format.specs.Walk.{walk, walk_at, Walks};
ghost use Rattle.desk_annos.specs.Stands.{StandsWithin};

use crate::parts::{walk_line_numbers, walk_method_parameters, walk_module, walk_raw, walk_tables};
use crate::places::signature_kind;
use desk_annos::{
    walk_annotations, walk_element, walk_frames, walk_parameter_annotations, walk_row, walk_table,
    walk_type_annotations,
};
use desk_base::{Cursor, PoolView, ReadFault, UseKind, Visit};
use desk_format::Slot::{Index, Number};
use desk_format::{Attribute, Location};

/// The body of an attribute at one of its places, other than Code and Record.
pub(crate) fn walk_known<P: PoolView, V: Visit>(
    attribute: Attribute,
    place: Location,
    length: u32,
    cursor: &mut Cursor<'_>,
    pool: &P,
    visit: &mut V,
) -> Result<(), ReadFault>
    requires no_code { attribute ≢ Attribute.Code }
    requires no_record { attribute ≢ Attribute.Record }
    ensures walks { Walks result (walk (read (P.pool pool.now) ((row_of inner_attributes attribute).body place length)) (walk_at (V.taken visit.old) cursor.old)) cursor.new (V.taken visit.new) }
    ensures stands { StandsWithin cursor.old cursor.new }
{
    macro_rules! row {
        ($($slot:expr),+) => { walk_row(&[$($slot),+], cursor, pool, visit) };
    }
    macro_rules! table {
        ($($slot:expr),+) => { walk_table(&[$($slot),+], cursor, pool, visit) };
    }
    match attribute {
        Attribute::ConstantValue => row!(Index(UseKind::Constant)),
        Attribute::StackMapTable => walk_frames(cursor, pool, visit),
        Attribute::Exceptions => table!(Index(UseKind::Class)),
        Attribute::InnerClasses => table!(
            Index(UseKind::Class),
            Index(UseKind::ClassOrNone),
            Index(UseKind::PlainOrNone),
            Number
        ),
        Attribute::EnclosingMethod => row!(
            Index(UseKind::Class),
            Index(UseKind::NameAndTypeOrNone)
        ),
        Attribute::Synthetic => Ok(()),
        Attribute::Deprecated => Ok(()),
        Attribute::Signature => row!(Index(signature_kind(place))),
        Attribute::SourceFile => row!(Index(UseKind::Plain)),
        Attribute::SourceDebugExtension => walk_raw(length, cursor),
        Attribute::LineNumberTable => walk_line_numbers(cursor, pool, visit),
        Attribute::LocalVariableTable => table!(
            Number,
            Number,
            Index(UseKind::Plain),
            Index(UseKind::FieldDescriptor),
            Number
        ),
        Attribute::LocalVariableTypeTable => table!(
            Number,
            Number,
            Index(UseKind::Plain),
            Index(UseKind::FieldSig),
            Number
        ),
        Attribute::RuntimeVisibleAnnotations | Attribute::RuntimeInvisibleAnnotations => {
            walk_annotations(cursor, pool, visit)
        }
        Attribute::RuntimeVisibleParameterAnnotations
        | Attribute::RuntimeInvisibleParameterAnnotations => {
            walk_parameter_annotations(cursor, pool, visit)
        }
        Attribute::RuntimeVisibleTypeAnnotations | Attribute::RuntimeInvisibleTypeAnnotations => {
            walk_type_annotations(cursor, pool, visit)
        }
        Attribute::AnnotationDefault => walk_element(cursor, 1, pool, visit),
        Attribute::BootstrapMethods => walk_tables(
            &[Index(UseKind::MethodHandle)],
            &[Index(UseKind::Loadable)],
            cursor,
            pool,
            visit,
        ),
        Attribute::MethodParameters => walk_method_parameters(cursor, pool, visit),
        Attribute::Module => walk_module(cursor, pool, visit),
        Attribute::ModulePackages => table!(Index(UseKind::Package)),
        Attribute::ModuleMainClass | Attribute::NestHost => row!(Index(UseKind::Class)),
        Attribute::NestMembers | Attribute::PermittedSubclasses => table!(Index(UseKind::Class)),
        Attribute::Code | Attribute::Record => unreachable!(),
    }
}
