//! What two worlds, of which the new one is compatible with the old one, keep of the types of owned pairs.
ghost use Rattle.std.specs.Prelude.{◌≡◌, ℕ, List, Bool, true, false, Option};
ghost use Rattle.go_base.specs.Lists.{Has};
ghost use Rattle.go_model.specs.declared.types.names.Sel.{Sel};
ghost use Rattle.go_model.specs.declared.types.names.TypeName.{TypeName};
ghost use Rattle.go_model.specs.declared.types.term.Field.{Field};
ghost use Rattle.go_model.specs.declared.types.term.Method.{Method};
ghost use Rattle.go_model.specs.declared.types.term.Signature.{Signature};
ghost use Rattle.go_model.specs.declared.types.term.Term.{Term, Term-F, out-Term};
ghost use Rattle.go_model.specs.types.Members.{field_sel};
ghost use Rattle.go_model.specs.types.MethodSets.{InSet, method_sel};
ghost use Rattle.go_model.specs.types.Selectors.{IsOnly, field, method};
ghost use Rattle.go_model.specs.types.Terms.{IsBlank, pointer_to};
ghost use Rattle.go_model.specs.types.Underlying.{entry, fields_of, methods_of, under};
ghost use Rattle.go_model.specs.worlds.Worlds.{IsWorld, Packages, Resolves};
ghost use Rattle.go_type_images.specs.Images.{image, image_of_method, image_of_signature, same_sels};
ghost use Rattle.go_type_images.specs.NewNames.{new_name};
ghost use Rattle.go_type_images.specs.Parts.{field_type, method_type};
ghost use Rattle.go_type_images.specs.SpotImages.{at_spot};
ghost use Rattle.go_type_images.specs.declared.pair.TypePair.{TypePair};
ghost use Rattle.api_correspond.specs.Outermost.{pair};
ghost use Rattle.api_correspond.specs.OwnedPairs.{HoldsOwned, Owned, are_of_module, have_members};
ghost use Rattle.api_correspond.specs.Publics.{IsExported, of_module, package_at, types_of};
ghost use Rattle.api_correspond.specs.Rules.{Compatible, IsOpen, have_interfaces, have_method_sets, have_structs, is_std_sel};
ghost use Rattle.api_correspond.specs.SharedStd.{ShareStd};
ghost use Rattle.api_kept_members.specs.KeptFinds.{FindsField, FindsMethod, FindsStdMethod, end_at};
ghost use Rattle.api_kept_members.specs.KeptLevels.{Kept};

/// Each name in the types of an owned pair has its entry, in the old world and in the new one.
pub fn resolved_pairs()
    ensures { (old new : Packages) → IsWorld old → IsWorld new → (owner : List ℕ) (p : TypePair) → Owned old new owner p → Resolves (types_of old) p.old × Resolves (types_of new) p.new }
{}

/// What is underneath types of the module is a struct in both worlds, an interface in both, or the image; types of a standard
/// library that both worlds share stay as they are; exported fields of
/// structs and exported methods are kept, with the images of their types, which are pairs too; and an interface without unexported
/// methods of the module has no new one. Methods by unexported selectors of the standard library stay as they are.
pub fn kept_members()
    ensures underneath { (old new : Packages) (pairs : List TypePair) → HoldsOwned old new pairs → Compatible old new → IsWorld old → IsWorld new → (p : TypePair) → Has pairs p → are_of_module old new p ≡ true
        → Kept (new_name pairs) pairs (under (types_of old) p.old) (under (types_of new) p.new) }
    ensures foreign { (old new : Packages) (pairs : List TypePair) → HoldsOwned old new pairs → Compatible old new → IsWorld old → IsWorld new → ShareStd old new → (p : TypePair) → Has pairs p
        → (n : TypeName) → out-Term p.old ≡ Term-F.Named n → of_module (package_at old n.path) ≡ false → (p.new ≡ p.old) × (entry (types_of new) n ≡ entry (types_of old) n) }
    ensures fields { (old new : Packages) (pairs : List TypePair) → HoldsOwned old new pairs → Compatible old new → IsWorld old → IsWorld new → (p : TypePair) → Has pairs p → have_members old new p ≡ true → have_structs old new p ≡ true
        → (f : Field) → Has (fields_of (under (types_of old) p.old)) f → IsExported (field_sel f)
        → (g : Field) × Has (fields_of (under (types_of new) p.new)) g × (field_sel g ≡ field_sel f) × (field_type g ≡ image (new_name pairs) same_sels (field_type f)) × Has pairs (pair (field_type f) (field_type g)) }
    ensures methods { (old new : Packages) (pairs : List TypePair) → HoldsOwned old new pairs → Compatible old new → IsWorld old → IsWorld new → (p : TypePair) → Has pairs p → have_method_sets old new p ≡ true
        → (s : Sel) (g : Signature) → IsExported s → InSet (types_of old) p.old s g → InSet (types_of new) p.new s (image_of_signature (new_name pairs) same_sels g) }
    ensures pointer_methods { (old new : Packages) (pairs : List TypePair) → HoldsOwned old new pairs → Compatible old new → (p : TypePair) → Has pairs p → have_method_sets old new p ≡ true
        → (s : Sel) (g : Signature) → IsExported s → InSet (types_of old) (pointer_to p.old) s g → InSet (types_of new) (pointer_to p.new) s (image_of_signature (new_name pairs) same_sels g) }
    ensures interface_methods { (old new : Packages) (pairs : List TypePair) → HoldsOwned old new pairs → Compatible old new → IsWorld old → IsWorld new → (p : TypePair) → Has pairs p → are_of_module old new p ≡ true → have_interfaces old new p ≡ true
        → (m : Method) → Has (methods_of (under (types_of old) p.old)) m → IsExported (method_sel m)
        → (n : Method) × Has (methods_of (under (types_of new) p.new)) n × (n ≡ image_of_method (new_name pairs) same_sels m) × Has pairs (pair (method_type m) (method_type n)) }
    ensures no_new_methods { (old new : Packages) (pairs : List TypePair) → HoldsOwned old new pairs → Compatible old new → IsWorld old → IsWorld new → (p : TypePair) → Has pairs p → are_of_module old new p ≡ true → have_interfaces old new p ≡ true
        → IsOpen old p.old → (n : Method) → Has (methods_of (under (types_of new) p.new)) n → IsExported (method_sel n)
        → (m : Method) × Has (methods_of (under (types_of old) p.old)) m × (n ≡ image_of_method (new_name pairs) same_sels m) }
    ensures std_interface_methods { (old new : Packages) (pairs : List TypePair) → HoldsOwned old new pairs → Compatible old new → IsWorld old → IsWorld new → (p : TypePair) → Has pairs p → are_of_module old new p ≡ true → have_interfaces old new p ≡ true
        → (m : Method) → Has (methods_of (under (types_of old) p.old)) m → is_std_sel old (method_sel m) ≡ true → Has (methods_of (under (types_of new) p.new)) m }
    ensures no_new_std_methods { (old new : Packages) (pairs : List TypePair) → HoldsOwned old new pairs → Compatible old new → IsWorld old → IsWorld new → (p : TypePair) → Has pairs p → are_of_module old new p ≡ true → have_interfaces old new p ≡ true
        → IsOpen old p.old → (n : Method) → Has (methods_of (under (types_of new) p.new)) n → is_std_sel old (method_sel n) ≡ true → Has (methods_of (under (types_of old) p.old)) n }
{}

/// What an exported selector finds from the old type of a pair it finds from the new one: of structs the fields at any depth,
/// and the methods, each with the image of its type, through a pointer where it was. A method by an unexported selector of the
/// standard library it finds with its own signature.
pub fn kept_finds()
    ensures fields { (old new : Packages) (pairs : List TypePair) → HoldsOwned old new pairs → Compatible old new → IsWorld old → IsWorld new → (p : TypePair) → Has pairs p → have_members old new p ≡ true → have_structs old new p ≡ true
        → (s : Sel) → IsExported s → (IsBlank s → ⊥) → (b through : Bool) (depth : ℕ) (t : Term) → IsOnly (types_of old) s (at_spot b p.old) depth (end_at through (field t)) → FindsField new pairs s b p.new through t }
    ensures methods { (old new : Packages) (pairs : List TypePair) → HoldsOwned old new pairs → Compatible old new → IsWorld old → IsWorld new → (p : TypePair) → Has pairs p → have_method_sets old new p ≡ true
        → (s : Sel) → IsExported s → (b through pointer : Bool) (depth : ℕ) (owner : Option TypeName) (g : Signature) → IsOnly (types_of old) s (at_spot b p.old) depth (end_at through (method owner pointer g)) → FindsMethod new pairs s b p.new pointer through g }
    ensures of_interfaces { (old new : Packages) (pairs : List TypePair) → HoldsOwned old new pairs → Compatible old new → IsWorld old → IsWorld new → (p : TypePair) → Has pairs p → are_of_module old new p ≡ true → have_interfaces old new p ≡ true
        → (s : Sel) → IsExported s → (b through pointer : Bool) (depth : ℕ) (owner : Option TypeName) (g : Signature) → IsOnly (types_of old) s (at_spot b p.old) depth (end_at through (method owner pointer g)) → FindsMethod new pairs s b p.new pointer through g }
    ensures std_methods { (old new : Packages) (pairs : List TypePair) → HoldsOwned old new pairs → Compatible old new → IsWorld old → IsWorld new → (p : TypePair) → Has pairs p → have_method_sets old new p ≡ true
        → (s : Sel) → is_std_sel old s ≡ true → (b through pointer : Bool) (depth : ℕ) (owner : Option TypeName) (g : Signature) → IsOnly (types_of old) s (at_spot b p.old) depth (end_at through (method owner pointer g)) → FindsStdMethod new s b p.new pointer through g }
    ensures std_of_interfaces { (old new : Packages) (pairs : List TypePair) → HoldsOwned old new pairs → Compatible old new → IsWorld old → IsWorld new → (p : TypePair) → Has pairs p → are_of_module old new p ≡ true → have_interfaces old new p ≡ true
        → (s : Sel) → is_std_sel old s ≡ true → (b through pointer : Bool) (depth : ℕ) (owner : Option TypeName) (g : Signature) → IsOnly (types_of old) s (at_spot b p.old) depth (end_at through (method owner pointer g)) → FindsStdMethod new s b p.new pointer through g }
{}
