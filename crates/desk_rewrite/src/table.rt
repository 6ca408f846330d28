//! The images of the texts of a class that are other texts.

ghost use Rattle.std.specs.Prelude.{◌≡◌, ◌+◌, ◌<◌, ◌≤◌, ◌^◌, ◌↔◌, ◌||◌, ◌∷◌, ◌++◌, [], length, All, IfOk, OnOk, IsTrue, option_copied};
ghost use Rattle.std.specs.Ordering.{is_eq};
ghost use Rattle.desk_base.specs.declared.kinds.Used.{Used};
ghost use Rattle.desk_base.specs.Entries.{text_at};
ghost use Rattle.desk_follow.specs.RuleImages.{images_of};
ghost use Rattle.desk_new_pool.specs.Wants.{numbered};
ghost use Rattle.desk_rewrite.specs.Tables.{Key, key_cmp, text_role_of, looked_at, Notes, is_seen, number_at, image_found, IsNumberedTable, FindsAt, HasImages};

use crate::images::image_by_role;
use crate::seen::{ByRole, Looked, looked_at, note};
use desk_base::{Memory, Role, Text, Used};
use desk_pool::Pool;
use desk_rename::Images;
use desk_rules::RuleSet;
use std::alloc::Global;

/// What a text is used as, where its image may be another text.
#[derive(Clone, Copy, Debug, PartialEq, Eq)]
pub enum TextRole {
    /// A class name in internal form, or the descriptor of an array.
    Class,
    /// A package in internal form.
    Package,
    /// A field, method or return descriptor.
    Descriptor,
    /// The signature of a class.
    ClassSig,
    /// The signature of a method.
    MethodSig,
    /// The signature of a field, a local variable or a record component.
    FieldSig,
    /// The text of a string constant.
    Str,
}

/// The images that differ from their texts, and what is known of each text by its index and its role. The images have
/// numbers from 1 on, in the order in which they were found.
#[derive(Drop)]
pub struct ImageTable {
    rows: Vec<ByRole>,
    images: Vec<Text>,
}

impl ImageTable {
    /// The table without images, in which no text was looked at, for so many indices from 0 on. The only error is want of
    /// memory.
    fn empty(alloc: Global, count: u16) -> Result<ImageTable, Memory>
        ensures images { IfOk result (λ table. table.images.items ≡ []) }
        ensures rows { IfOk result (λ table. length table.rows.items ≡ count) }
        ensures unseen { IfOk result (λ table. (key : Key) → looked_at table.rows.items key ≡ Looked.NotYet) }
    {
        let rows = vec![in alloc; ByRole::unseen(); count as usize]?;
        Ok(ImageTable {
            rows,
            images: Vec::new(alloc),
        })
    }

    /// The images, by their numbers.
    pub fn images(&self) -> &[Text]
        ensures { result.now ≡ self.now.images.items }
    {
        self.images.as_slice()
    }

    /// Whether there is no image.
    pub fn is_empty(&self) -> bool
        ensures { IsTrue result ↔ (self.now.images.items ≡ []) }
    {
        self.images.is_empty()
    }

    /// Whether the text of a key was looked at.
    fn is_seen(&self, key: (u16, TextRole)) -> bool
        ensures { result ≡ is_seen self.now key }
    {
        match looked_at(self.rows.as_slice(), key) {
            Looked::NotYet => false,
            Looked::Own => true,
            Looked::Image(_) => true,
        }
    }

    /// The number of the image at a key, and 0 where there is none.
    fn number(&self, key: (u16, TextRole)) -> u32
        ensures { result ≡ number_at self.now key }
    {
        match looked_at(self.rows.as_slice(), key) {
            Looked::NotYet => 0,
            Looked::Own => 0,
            Looked::Image(number) => number,
        }
    }

    /// Notes what is known of the text of a key.
    fn note(&mut self, key: (u16, TextRole), looked: Looked)
        requires { key.0 < length self.old.rows.items }
        ensures notes { Notes self.old.rows.items key looked self.new.rows.items }
        ensures rows { length self.new.rows.items ≡ length self.old.rows.items }
        ensures images { self.new.images.items ≡ self.old.images.items }
    {
        note(&mut self.rows, key, looked);
    }

    /// Adds the image of the text of a key. The only error is want of memory.
    fn put(&mut self, key: (u16, TextRole), image: Text) -> Result<(), Memory>
        requires few { length self.old.images.items + 1 < 2 ^ 32 }
        requires room { key.0 < length self.old.rows.items }
        ensures notes { OnOk result (Notes self.old.rows.items key (Looked.Image (length self.new.images.items)) self.new.rows.items) }
        ensures rows { OnOk result (length self.new.rows.items ≡ length self.old.rows.items) }
        ensures images { OnOk result (self.new.images.items ≡ self.old.images.items ++ image ∷ []) }
    {
        self.images.push(image)?;
        let number = self.images.len() as u32;
        self.note(key, Looked::Image(number));
        Ok(())
    }
}

/// The role as one whose texts may have another image; none where each text is its own image.
pub fn text_role_of(role: Role) -> Option<TextRole>
    ensures { result ≡ text_role_of role }
{
    match role {
        Role::Class => Some(TextRole::Class),
        Role::Package => Some(TextRole::Package),
        Role::Descriptor => Some(TextRole::Descriptor),
        Role::ClassSig => Some(TextRole::ClassSig),
        Role::MethodSig => Some(TextRole::MethodSig),
        Role::FieldSig => Some(TextRole::FieldSig),
        Role::Str => Some(TextRole::Str),
        Role::Module | Role::Plain | Role::AttrName => None,
    }
}

/// The text that an index names, or the empty text.
pub fn text_at<'a>(pool: &Pool<'a>, index: u16) -> &'a [u8]
    ensures { result.now ≡ text_at pool.now.entries index }
{
    match pool.utf8(index) {
        Some(text) => text,
        None => &[],
    }
}

/// Looks at a text, and adds its image where that is another text.
fn add_image<I: Images>(
    alloc: Global,
    rules: &RuleSet,
    images: &I,
    pool: &Pool<'_>,
    table: &mut ImageTable,
    key: (u16, TextRole),
) -> Result<(), Memory>
    requires images { I.renames images.now ≡ rules.now.renames }
    requires few { length table.old.images.items + 1 < 2 ^ 32 }
    requires room { key.0 < length table.old.rows.items }
    requires numbers { IsNumberedTable table.old }
    ensures few { OnOk result (length table.new.images.items ≤ length table.old.images.items + 1) }
    ensures rows { OnOk result (length table.new.rows.items ≡ length table.old.rows.items) }
    ensures numbers { OnOk result (IsNumberedTable table.new) }
    ensures seen { OnOk result ((q : Key) → is_seen table.new q ≡ (is_eq (key_cmp key q) || is_seen table.old q)) }
    ensures finds { OnOk result (FindsAt (images_of rules.now) pool.now.entries table.new key) }
    ensures keeps { OnOk result ((q : Key) → FindsAt (images_of rules.now) pool.now.entries table.old q → FindsAt (images_of rules.now) pool.now.entries table.new q) }
{
    let text = text_at(pool, key.0);
    match image_by_role(alloc, rules, images, key.1, text)? {
        None => {
            table.note(key, Looked::Own);
            Ok(())
        }
        Some(image) => {
            table.put(key, image)?;
            Ok(())
        }
    }
}

/// The images of the texts of all uses. Each is computed once, at its first use, and kept where it is another text. The only
/// error is want of memory.
pub fn all_images<I: Images>(
    alloc: Global,
    rules: &RuleSet,
    images: &I,
    pool: &Pool<'_>,
    uses: &[Used],
) -> Result<ImageTable, Memory>
    requires images { I.renames images.now ≡ rules.now.renames }
    requires few { length uses.now < 2 ^ 32 }
    requires indices { All (λ (u : Used). u.index ≤ length pool.now.entries) uses.now }
    ensures { IfOk result (HasImages (images_of rules.now) pool.now.entries uses.now) }
{
    let mut table = ImageTable::empty(alloc, pool.count())?;
    for used in uses {
        if let Some(text_role) = text_role_of(used.role) {
            let key = (used.index, text_role);
            if !table.is_seen(key) {
                add_image(alloc, rules, images, pool, &mut table, key)?;
            }
        }
    }
    Ok(table)
}

/// The number of the image of the text at an index in a role, where the table has one that is another text, and else 0.
pub fn number_in(table: &ImageTable, index: u16, role: Role) -> u32
    ensures { numbered table.now.images.items result ≡ image_found table.now index role }
{
    match text_role_of(role) {
        None => 0,
        Some(text_role) => table.number((index, text_role)),
    }
}

/// The image of the text at an index in a role, where the table has one that is another text.
pub fn image_in(table: &ImageTable, index: u16, role: Role) -> Option<&[u8]>
    ensures { option_copied result ≡ image_found table.now index role }
{
    let number = number_in(table, index, role);
    if number == 0 {
        return None;
    }
    match table.images.get(number as usize - 1) {
        None => None,
        Some(image) => Some(image.as_bytes()),
    }
}
