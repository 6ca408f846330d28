//! Where attributes may stand.

ghost use Rattle.std.specs.Prelude.{◌≡◌};
ghost use Rattle.desk_base.specs.declared.kinds.UseKind.{UseKind as KindOf};
ghost use Rattle.desk_format.specs.Attributes.{row_of, inner_attributes, is_among, signature_kind};

use desk_base::UseKind;
use desk_format::{Attribute, Location};

/// Whether an attribute may stand at a place (JVMS 4.7, table 4.7-C). At another place it is raw bytes.
pub(crate) fn may_stand(attribute: Attribute, place: Location) -> bool
    ensures { result ≡ is_among (row_of inner_attributes attribute).places place }
{
    match attribute {
        Attribute::ConstantValue => matches!(place, Location::OfField),
        Attribute::Code
        | Attribute::Exceptions
        | Attribute::RuntimeVisibleParameterAnnotations
        | Attribute::RuntimeInvisibleParameterAnnotations
        | Attribute::AnnotationDefault
        | Attribute::MethodParameters => matches!(place, Location::OfMethod),
        Attribute::StackMapTable
        | Attribute::LineNumberTable
        | Attribute::LocalVariableTable
        | Attribute::LocalVariableTypeTable => matches!(place, Location::OfCode),
        Attribute::Synthetic | Attribute::Deprecated => {
            matches!(
                place,
                Location::OfClass | Location::OfField | Location::OfMethod
            )
        }
        Attribute::Signature
        | Attribute::RuntimeVisibleAnnotations
        | Attribute::RuntimeInvisibleAnnotations => !matches!(place, Location::OfCode),
        Attribute::RuntimeVisibleTypeAnnotations | Attribute::RuntimeInvisibleTypeAnnotations =>
            true,
        _ => matches!(place, Location::OfClass),
    }
}

/// Which signature a Signature attribute holds at a place (JVMS 4.7.9).
pub(crate) fn signature_kind(place: Location) -> UseKind
    ensures { result ≡ signature_kind place }
{
    match place {
        Location::OfClass => UseKind::ClassSig,
        Location::OfMethod => UseKind::MethodSig,
        _ => UseKind::FieldSig,
    }
}
