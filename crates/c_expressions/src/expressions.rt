//! Expressions (C11 6.5): one walk that goes on after a fault.

ghost use Rattle.std.specs.Prelude.{◌≡◌, ◌%◌, ◌^◌, ◌&&◌, ◌++◌, Some, map, not, option_copied, IfOk, OnOk};
ghost use Rattle.rtl_word.specs.Words.{word_of_signed};
ghost use Rattle.c_tree.specs.declared.types.CType.TheVariants as type;
ghost use Rattle.c_tree.specs.declared.typed.TypedExpr.TheVariants as tree;
ghost use Rattle.c_typing.specs.Faults.{notes, ◌also◌};
ghost use Rattle.c_typing.specs.Types as spec_types;
ghost use Rattle.c_typing.specs.Expressions as spec;
ghost use Rattle.c_expressions.specs.Seen.{setting_of};

use crate::scene::Scene;
use c_conversions::{
    Told, character, is_mixed, is_no_place, is_void, is_void_beside, number_type, type_of_words,
};
use c_names::NoMemory;
use c_nodes::expressions as nodes;
use c_tree::syntax::{AssignOperator, Expr};
use c_tree::typed::Head;
use c_tree::{At, CType, TypedExpr};
use c_typing::{Signature, Typing, Usage};
use rtl_word::Word;
use sqlite_items::{Boxed, Items};
use std::alloc::Global;

/// An operand whose value is used.
pub fn as_value(told: &mut Told, a: Typing) -> Typing
    ensures seen { result ≡ spec.as_value a }
    ensures told { told.new.first ≡ notes told.old.first (spec.void_used a) }
{
    if is_void(&a.tree) {
        told.tell(24, a.at);
        return Typing {
            at: a.at,
            tree: None,
        };
    }
    a
}

/// A value that is assigned to.
fn as_place(told: &mut Told, a: Typing) -> Typing
    ensures seen { result ≡ spec.as_place a }
    ensures told { told.new.first ≡ notes told.old.first (spec.no_place_assigned a) }
{
    if is_no_place(&a.tree) {
        told.tell(25, a.at);
        return Typing {
            at: a.at,
            tree: None,
        };
    }
    a
}

fn number<W: Word>(
    alloc: Global,
    told: &mut Told,
    at: At,
    value: u64,
    decimal: bool,
    unsigned: bool,
) -> Result<Typing, NoMemory>
    ensures seen { IfOk result (λ t. t ≡ (spec.number at value (spec.number_type W.BITS value decimal unsigned)).seen) }
    ensures told { OnOk result (told.new.first ≡ notes told.old.first (spec.number at value (spec.number_type W.BITS value decimal unsigned)).faults) }
{
    match number_type::<W>(value, decimal, unsigned) {
        None => {
            told.tell(34, at);
            Ok(Typing { at, tree: None })
        }
        Some(of) => {
            let tree = Boxed::new(alloc, TypedExpr::Constant(Head { of, at }, value as u32))?;
            Ok(Typing {
                at,
                tree: Some(tree),
            })
        }
    }
}

fn character_constant<W: Word>(alloc: Global, at: At, value: i32) -> Result<Typing, NoMemory>
    ensures { IfOk result (λ t. t ≡ spec.seen at (Some (tree.Constant (spec_types.head type.Int at) (word_of_signed W.BITS value % 2 ^ W.BITS)))) }
{
    let of = CType::Int;
    let tree = Boxed::new(
        alloc,
        TypedExpr::Constant(Head { of, at }, character::<W>(value)),
    )?;
    Ok(Typing {
        at,
        tree: Some(tree),
    })
}

/// An operand that is assigned to.
fn as_assigned(told: &mut Told, a: Typing) -> Typing
    ensures seen { result ≡ spec.as_place (spec.as_value a) }
    ensures told { told.new.first ≡ notes told.old.first (spec.void_used a also spec.no_place_assigned (spec.as_value a)) }
{
    let a = as_value(told, a);
    as_place(told, a)
}

/// Whether one of the last operands of `?:` is void and the other a value.
fn tell_mixed(told: &mut Told, b: &Typing, c: &Typing) -> bool
    ensures is { result ≡ spec.is_mixed b.now.tree c.now.tree }
    ensures told { told.new.first ≡ notes told.old.first (spec.void_beside b.now c.now also spec.void_beside c.now b.now) }
{
    told.tell_if(is_void_beside(&b.tree, &c.tree), 24, b.at);
    told.tell_if(is_void_beside(&c.tree, &b.tree), 24, c.at);
    is_mixed(&b.tree, &c.tree)
}

fn both(a: bool, b: bool) -> bool
    ensures { result ≡ (a && b) }
{
    a && b
}

fn proper(
    wrong: Option<u8>,
    sound: bool,
    tree: Option<Boxed<TypedExpr>>,
) -> Option<Boxed<TypedExpr>>
    ensures { result ≡ spec.if_proper wrong (spec.unless (not sound) tree) }
{
    match wrong {
        None => { if sound { tree } else { None } }
        Some(_) => None,
    }
}

/// Arguments in the types of a function's parameters: the sound ones, and whether all are.
#[cycle(expressions)]
fn arguments<W: Word>(
    alloc: Global,
    scene: &Scene<'_>,
    told: &mut Told,
    signature: Option<&Signature>,
    list: &[Expr],
) -> Result<(Items<TypedExpr>, bool), NoMemory>
    ensures trees { IfOk result (λ r. r.0 ≡ spec.arguments (spec.params_of (option_copied signature.entry)) 0 (map (spec.judge (setting_of W.BITS scene.now)) list.now)) }
    ensures sound { IfOk result (λ r. r.1 ≡ spec.all_sound (map (spec.judge (setting_of W.BITS scene.now)) list.now)) }
    ensures told { OnOk result (told.new.first ≡ notes told.old.first (spec.faults_of (map (spec.judge (setting_of W.BITS scene.now)) list.now))) }
{
    let mut trees = Items::new(alloc);
    let mut sound = true;
    let mut i = 0;
    for e in list {
        let a = expression::<W>(alloc, scene, told, e)?;
        let a = as_value(told, a);
        let one = nodes::push_argument(alloc, &mut trees, signature, i, a.tree)?;
        sound = both(sound, one);
        i += 1;
    }
    Ok((trees, sound))
}

/// What is seen of an expression; the first fault is told.
#[cycle(expressions)]
pub fn expression<W: Word>(
    alloc: Global,
    scene: &Scene<'_>,
    told: &mut Told,
    e: &Expr,
) -> Result<Typing, NoMemory>
    ensures seen { IfOk result (λ t. t ≡ (spec.judge (setting_of W.BITS scene.now) e.now).seen) }
    ensures told { OnOk result (told.new.first ≡ notes told.old.first (spec.judge (setting_of W.BITS scene.now) e.now).faults) }
{
    match e {
        Expr::Name(at, name) => {
            let meaning = scene.find(name.as_slice());
            told.tell_any(nodes::misuse(scene.signatures, meaning, Usage::Object), *at);
            Ok(Typing {
                at: *at,
                tree: nodes::object::<W>(alloc, *at, meaning)?,
            })
        }
        Expr::Element(at, name, index) => {
            let meaning = scene.find(name.as_slice());
            told.tell_any(nodes::misuse(scene.signatures, meaning, Usage::Array), *at);
            let index = expression::<W>(alloc, scene, told, index.get())?;
            let index = as_value(told, index);
            let tree = nodes::element(alloc, *at, meaning, index.tree)?;
            Ok(Typing { at: *at, tree })
        }
        Expr::Call(at, name, list) => {
            let meaning = scene.find(name.as_slice());
            let wrong = nodes::misuse(scene.signatures, meaning, Usage::Function(list.len()));
            told.tell_any(wrong, *at);
            let signature = nodes::signature_of(scene.signatures, meaning);
            let (trees, sound) = arguments::<W>(alloc, scene, told, signature, list.as_slice())?;
            let tree = nodes::call(alloc, *at, meaning, signature, trees)?;
            let tree = proper(wrong, sound, tree);
            Ok(Typing { at: *at, tree })
        }
        Expr::Number {
            at,
            value,
            decimal,
            unsigned,
        } => number::<W>(alloc, told, *at, *value, *decimal, *unsigned),
        Expr::Binary(at, a, o, b) => {
            let a = expression::<W>(alloc, scene, told, a.get())?;
            let a = as_value(told, a);
            let b = expression::<W>(alloc, scene, told, b.get())?;
            let b = as_value(told, b);
            let tree = nodes::binary(alloc, *at, *o, a.tree, b.tree)?;
            Ok(Typing { at: *at, tree })
        }
        Expr::Comma(at, a, b) => {
            let a = expression::<W>(alloc, scene, told, a.get())?;
            let b = expression::<W>(alloc, scene, told, b.get())?;
            let tree = nodes::comma(alloc, *at, a.tree, b.tree)?;
            Ok(Typing { at: *at, tree })
        }
        Expr::Conditional(at, a, b, c) => {
            let a = expression::<W>(alloc, scene, told, a.get())?;
            let a = as_value(told, a);
            let b = expression::<W>(alloc, scene, told, b.get())?;
            let c = expression::<W>(alloc, scene, told, c.get())?;
            let mixed = tell_mixed(told, &b, &c);
            let tree = nodes::conditional(alloc, *at, mixed, a.tree, b.tree, c.tree)?;
            Ok(Typing { at: *at, tree })
        }
        Expr::Assign(at, a, AssignOperator::Plain, b) => {
            let a = expression::<W>(alloc, scene, told, a.get())?;
            let a = as_assigned(told, a);
            let b = expression::<W>(alloc, scene, told, b.get())?;
            let b = as_value(told, b);
            let tree = nodes::assign(alloc, *at, a.tree, b.tree)?;
            Ok(Typing { at: *at, tree })
        }
        Expr::Assign(at, a, AssignOperator::Compound(o), b) => {
            let a = expression::<W>(alloc, scene, told, a.get())?;
            let a = as_assigned(told, a);
            let b = expression::<W>(alloc, scene, told, b.get())?;
            let b = as_value(told, b);
            let tree = nodes::compound(alloc, *at, *o, a.tree, b.tree)?;
            Ok(Typing { at: *at, tree })
        }
        Expr::Cast(at, words, a) => {
            let a = expression::<W>(alloc, scene, told, a.get())?;
            let a = as_value(told, a);
            let tree = nodes::cast(alloc, *at, type_of_words(*words), a.tree)?;
            Ok(Typing { at: *at, tree })
        }
        Expr::Paren(at, a) => {
            let a = expression::<W>(alloc, scene, told, a.get())?;
            Ok(Typing {
                at: *at,
                tree: a.tree,
            })
        }
        Expr::Unary(at, o, a) => {
            let a = expression::<W>(alloc, scene, told, a.get())?;
            let a = as_value(told, a);
            let tree = nodes::unary(alloc, *at, *o, a.tree)?;
            Ok(Typing { at: *at, tree })
        }
        Expr::Before(at, o, a) => {
            let a = expression::<W>(alloc, scene, told, a.get())?;
            let a = as_assigned(told, a);
            let tree = nodes::before(alloc, *at, *o, a.tree)?;
            Ok(Typing { at: *at, tree })
        }
        Expr::After(at, a, o) => {
            let a = expression::<W>(alloc, scene, told, a.get())?;
            let a = as_assigned(told, a);
            let tree = nodes::after(alloc, *at, *o, a.tree)?;
            Ok(Typing { at: *at, tree })
        }
        Expr::Character(at, value) => character_constant::<W>(alloc, *at, *value),
    }
}
