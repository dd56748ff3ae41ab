//! Laws of images: the new type of each owned pair is the image of the old one, and an image keeps what its type is.
ghost use Rattle.std.specs.Prelude.{◌≡◌, List, Bool, true, false};
ghost use Rattle.go_base.specs.Lists.{Has};
ghost use Rattle.go_model.specs.declared.types.names.TypeName.{TypeName};
ghost use Rattle.go_model.specs.declared.types.term.Term.{Term, out-Term};
ghost use Rattle.go_model.specs.types.Bounds.{height, nodes};
ghost use Rattle.go_model.specs.types.Tags.{untagged};
ghost use Rattle.go_model.specs.worlds.Worlds.{Packages};
ghost use Rattle.go_type_images.specs.Images.{Naming, Selecting, image, same_sels};
ghost use Rattle.go_type_images.specs.Leaves.{Leaves};
ghost use Rattle.go_type_images.specs.NewNames.{new_name};
ghost use Rattle.go_type_images.specs.Parts.{parts};
ghost use Rattle.go_type_images.specs.declared.pair.TypePair.{TypePair};
ghost use Rattle.api_correspond.specs.Outermost.{pair};
ghost use Rattle.api_correspond.specs.OwnedPairs.{HoldsOwned};
ghost use Rattle.api_correspond.specs.Publics.{of_module, package_at};
ghost use Rattle.api_correspond.specs.Rules.{Compatible};
ghost use Rattle.api_type_images.specs.OwnedNames.{IsOwnedName, is_foreign};

/// The new type of each owned pair is the image of the old one under the new names that the pairs give, and the same
/// holds of the types that stand in it. What isn't of the module keeps its name, a type without names of the module
/// stays as it is, and two names of owned types have different new names.
pub fn images_of_pairs()
    ensures image { (old new : Packages) (pairs : List TypePair) → HoldsOwned old new pairs → Compatible old new → (p : TypePair) → Has pairs p → p.new ≡ image (new_name pairs) same_sels p.old }
    ensures parts { (old new : Packages) (pairs : List TypePair) → HoldsOwned old new pairs → Compatible old new → (p : TypePair) → Has pairs p → (t : Term) → Has (parts (out-Term p.old)) t → Has pairs (pair t (image (new_name pairs) same_sels t)) }
    ensures stays { (old new : Packages) (pairs : List TypePair) → HoldsOwned old new pairs → Compatible old new → (n : TypeName) → of_module (package_at old n.path) ≡ false → new_name pairs n ≡ n }
    ensures foreign { (old new : Packages) (pairs : List TypePair) → HoldsOwned old new pairs → Compatible old new → (p : TypePair) → Has pairs p → Leaves (is_foreign old) p.old → p.new ≡ p.old }
    ensures one_old { (old new : Packages) (pairs : List TypePair) → HoldsOwned old new pairs → Compatible old new → (m n : TypeName) → IsOwnedName pairs m → IsOwnedName pairs n → new_name pairs m ≡ new_name pairs n → m ≡ n }
{}

/// Types whose names have different new names have different images, and one whose names stay is its own image. An image
/// is as large and as high as its type, and leaving out tags before or after gives the same.
pub fn images()
    ensures apart { (r : Naming) (P : TypeName → Bool) → ((m n : TypeName) → P m ≡ true → P n ≡ true → r m ≡ r n → m ≡ n) → (s t : Term) → Leaves P s → Leaves P t → image r same_sels s ≡ image r same_sels t → s ≡ t }
    ensures same { (r : Naming) (P : TypeName → Bool) → ((n : TypeName) → P n ≡ true → r n ≡ n) → (t : Term) → Leaves P t → image r same_sels t ≡ t }
    ensures nodes { (r : Naming) (s : Selecting) (t : Term) → nodes (image r s t) ≡ nodes t }
    ensures height { (r : Naming) (s : Selecting) (t : Term) → height (image r s t) ≡ height t }
    ensures untagged { (r : Naming) (s : Selecting) (t : Term) → untagged (image r s t) ≡ image r s (untagged t) }
{}
