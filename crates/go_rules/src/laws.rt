//! Laws of typing. An expression is one operand, and so is what is made of operands. What it is, it stays among
//! more entries and where less is barred, and depends on what it refers to alone. The value of the constant that
//! it is is of its kind.
ghost use Rattle.std.specs.Prelude.{◌≡◌, ℕ, Bool, List, Option};
ghost use Rattle.go_syntax.specs.go_base.declared.operator.CompareOp.{CompareOp};
ghost use Rattle.go_syntax.specs.go_base.declared.operator.ProductOperator.{ProductOperator};
ghost use Rattle.go_syntax.specs.go_base.declared.operator.SumOperator.{SumOperator};
ghost use Rattle.go_model.specs.declared.constants.value.BinaryOp.{BinaryOp};
ghost use Rattle.go_model.specs.declared.constants.value.Kind.{Kind};
ghost use Rattle.go_model.specs.declared.constants.value.Untyped.{Untyped};
ghost use Rattle.go_model.specs.declared.constants.value.Value.{Value};
ghost use Rattle.go_model.specs.declared.types.names.Sel.{Sel};
ghost use Rattle.go_model.specs.declared.types.package.ConstTerm.{ConstTerm};
ghost use Rattle.go_model.specs.declared.types.term.Field.{Field};
ghost use Rattle.go_model.specs.declared.types.term.Method.{Method};
ghost use Rattle.go_model.specs.declared.types.term.Signature.{Signature};
ghost use Rattle.go_model.specs.declared.types.term.Term.{Term};
ghost use Rattle.go_model.specs.types.Selectors.{Ending};
ghost use Rattle.go_model.specs.types.Underlying.{under};
ghost use Rattle.go_rules.specs.Asks.{HasOperand, IsType, Meets};
ghost use Rattle.go_rules.specs.Environments.{Entered, Env, Found, HasMethod};
ghost use Rattle.go_rules.specs.Expressions.{Computes, Converts, Denotes, DenotesImported, Has, HasBuiltin, HasComparisons, HasEach, HasElements, HasForm, HasIndexed, HasKeyed, HasLogical, HasOptional, HasPost, HasPosts, HasProduct, HasSizes, HasSum, HoldsNone, HoldsOne, IsArray, IsComparison, IsCount, IsIndex, IsString, IsTypeName, OfFields, OfForm, OfMethods, OfParameters, OfResult, OfSignature, OfType, ProductComputes, ProductKind, Shifts, Slices};
ghost use Rattle.go_rules.specs.Growth.{Grows, unflagged};
ghost use Rattle.go_rules.specs.KeptConstants.{ConstantsKept, IsKept, ShapeKept};
ghost use Rattle.go_rules.specs.Nodes.{Node, expression, type as type_node, signature as signature_node, ExprLayer, PostLayer, ResultLayer, TypeLayer};
ghost use Rattle.go_rules.specs.Operands.{HasKind, IsOf, IsTyped, IsUntyped, constant_of};
ghost use Rattle.go_rules.specs.Regions.{Region, IsClosed, RefersIn, ShapeIn, SignatureIn, TermIn, cut};
ghost use Rattle.go_rules.specs.Usability.{Assignable, Compares, Convertible, Implements, Match, UsableAs};
ghost use Rattle.go_rules.specs.declared.operand.Operand.{Operand};
ghost use Rattle.go_rules.specs.declared.predeclared.Predeclared.{Predeclared};
ghost use Rattle.go_syntax.specs.declared.expression.Element.{Element};
ghost use Rattle.go_syntax.specs.declared.expression.Expr.{Expr};
ghost use Rattle.go_syntax.specs.declared.expression.Post.{Post};
ghost use Rattle.go_syntax.specs.declared.name.Name.{Name};
ghost use Rattle.go_syntax.specs.declared.name.QualifiedName.{QualifiedName};
ghost use Rattle.go_syntax.specs.declared.types.FieldDecl.{FieldDecl};
ghost use Rattle.go_syntax.specs.declared.types.FuncResult.{FuncResult};
ghost use Rattle.go_syntax.specs.declared.types.InterfaceElem.{InterfaceElem};
ghost use Rattle.go_syntax.specs.declared.types.ParameterDecl.{ParameterDecl};
ghost use Rattle.go_syntax.specs.declared.types.Signature.{Signature as Sig, out-Signature as out-Sig};
ghost use Rattle.go_syntax.specs.declared.types.«Type».{«Type» as Typ};

/// An operand is of one type or one untyped kind, a type or untyped kind has one kind, and two operands match
/// in one.
pub fn one_type()
    ensures typed { (o : Operand) (t u : Term) → IsTyped o t → IsTyped o u → t ≡ u }
    ensures untyped { (o : Operand) (j k : Untyped) → IsUntyped o j → IsUntyped o k → j ≡ k }
    ensures apart { (o : Operand) (t : Term) (k : Untyped) → IsTyped o t → IsUntyped o k → ⊥ }
    ensures either { (o : Operand) (c d : ConstTerm) → IsOf o c → IsOf o d → c ≡ d }
    ensures kind { (E : Env) (c : ConstTerm) (j k : Kind) → HasKind E c j → HasKind E c k → j ≡ k }
    ensures matching { (E : Env) (left right : Operand) (c d : ConstTerm) → Match E left right c → Match E left right d → c ≡ d }
{}

/// An operator, a comparison, a shift, a conversion and a slice expression make one operand of operands.
pub fn one_result()
    ensures computes { (E : Env) (op : BinaryOp) (left right r s : Operand) → Computes E op left right r → Computes E op left right s → r ≡ s }
    ensures shifts { (E : Env) (left : Bool) (l o r s : Operand) → Shifts E left l o r → Shifts E left l o s → r ≡ s }
    ensures product { (E : Env) (p : ProductKind) (l o r s : Operand) → ProductComputes E p l o r → ProductComputes E p l o s → r ≡ s }
    ensures comparison { (E : Env) (op : CompareOp) (left right r s : Operand) → IsComparison E op left right r → IsComparison E op left right s → r ≡ s }
    ensures conversion { (E : Env) (o : Operand) (t : Term) (r s : Operand) → Converts E o t r → Converts E o t s → r ≡ s }
    ensures sliced { (E : Env) (simple other : Bool) (o : Operand) (m n : Option ℕ) (r s : Operand) → Slices E simple o m r → Slices E other o n s → r ≡ s }
{}

/// An index, the count of a shift, a constant string, an array and what is sliced have one value, length and
/// element.
pub fn one_length()
    ensures index { (E : Env) (o : Operand) (c d : Option ℕ) → IsIndex E o c → IsIndex E o d → c ≡ d }
    ensures count { (E : Env) (o : Operand) (v w : Option Value) → IsCount E o v → IsCount E o w → v ≡ w }
    ensures string { (E : Env) (o : Operand) (m n : Option ℕ) → IsString E o m → IsString E o n → m ≡ n }
    ensures array { (E : Env) (t : Term) (p q : Bool) (m n : ℕ) (u v : Term) → IsArray E t p m u → IsArray E t q n v → m ≡ n }
    ensures element { (E : Env) (t : Term) (p q : Bool) (m n : ℕ) (u v : Term) → IsArray E t p m u → IsArray E t q n v → u ≡ v }
    ensures sliced { (E : Env) (simple other : Bool) (o : Operand) (m n : Option ℕ) (r s : Operand) → Slices E simple o m r → Slices E other o n s → m ≡ n }
{}

/// A selector finds one field or method in a type, and a type has one method of a selector.
pub fn one_found()
    ensures found { (E : Env) (s : Sel) (t : Term) (x y : Ending) → Found E s t x → Found E s t y → x ≡ y }
    ensures method { (E : Env) (a b : Bool) (s : Sel) (t : Term) (g h : Signature) → HasMethod E a t s g → HasMethod E b t s h → g ≡ h }
{}

/// A name denotes one operand, and a type's name stands for one type.
pub fn one_meaning()
    ensures name { (E : Env) (n : Name) (o p : Operand) → Denotes E n o → Denotes E n p → o ≡ p }
    ensures imported { (E : Env) (q n : Name) (o p : Operand) → DenotesImported E q n o → DenotesImported E q n p → o ≡ p }
    ensures apart { (E : Env) (q n : Name) (o p : Operand) → Denotes E q o → DenotesImported E q n p → ⊥ }
    ensures of_type { (E : Env) (q : QualifiedName) (t u : Term) → IsTypeName E q t → IsTypeName E q u → t ≡ u }
{}

/// An expression is one operand, and so is each of its parts: a chain of operators, what follows an operand and
/// a call of a builtin function. No expression both holds a receive, or a call that is neither a conversion nor
/// constant, and holds none.
pub fn one_operand()
    ensures whole { (E : Env) (e : Expr) (o p : Operand) → HasOperand E e o → HasOperand E e p → o ≡ p }
    ensures expression { (E : Env) (e : Expr) (o p : Operand) → Has E e o → Has E e p → o ≡ p }
    ensures form { (E : Env) (l : ExprLayer) (o p : Operand) → HasForm E l o → HasForm E l p → o ≡ p }
    ensures logical { (E : Env) (op : BinaryOp) (o : Operand) (es : List Expr) (r s : Operand) → HasLogical E op o es r → HasLogical E op o es s → r ≡ s }
    ensures comparisons { (E : Env) (o : Operand) (ops : List CompareOp) (es : List Expr) (r s : Operand) → HasComparisons E o ops es r → HasComparisons E o ops es s → r ≡ s }
    ensures sums { (E : Env) (o : Operand) (ops : List SumOperator) (es : List Expr) (r s : Operand) → HasSum E o ops es r → HasSum E o ops es s → r ≡ s }
    ensures products { (E : Env) (o : Operand) (ops : List ProductOperator) (es : List Expr) (r s : Operand) → HasProduct E o ops es r → HasProduct E o ops es s → r ≡ s }
    ensures posts { (E : Env) (o : Operand) (xs : List Post) (r s : Operand) → HasPosts E o xs r → HasPosts E o xs s → r ≡ s }
    ensures post { (E : Env) (o : Operand) (l : PostLayer) (r s : Operand) → HasPost E o l r → HasPost E o l s → r ≡ s }
    ensures builtin { (E : Env) (f : Predeclared) (es : List Expr) (dots : Bool) (r s : Operand) → HasBuiltin E f es dots r → HasBuiltin E f es dots s → r ≡ s }
    ensures quiet { (E : Env) (e : Expr) → HoldsNone E e → HoldsOne E e → ⊥ }
{}

/// The expressions of a list are one list of operands, sizes and an index that may be left out have their
/// constant values, and the elements of a composite literal name one list of fields or reach one index.
pub fn one_list()
    ensures each { (E : Env) (es : List Expr) (os ps : List Operand) → HasEach E es os → HasEach E es ps → os ≡ ps }
    ensures sizes { (E : Env) (es : List Expr) (ms ns : List (Option ℕ)) → HasSizes E es ms → HasSizes E es ns → ms ≡ ns }
    ensures optional { (E : Env) (e : Option Expr) (c d : Option ℕ) → HasOptional E e c → HasOptional E e d → c ≡ d }
    ensures keyed { (E : Env) (fs : List Field) (xs : List Element) (ms ns : List (List ℕ)) → HasKeyed E fs xs ms → HasKeyed E fs xs ns → ms ≡ ns }
    ensures indexed { (E : Env) (t u : Term) (l k : Option ℕ) (next : ℕ) (xs : List Element) (m n : ℕ) → HasIndexed E t l next xs m → HasIndexed E u k next xs n → m ≡ n }
{}

/// A type form stands for one type, and so do its parts.
pub fn one_term()
    ensures whole { (E : Env) (t : Typ) (u v : Term) → IsType E t u → IsType E t v → u ≡ v }
    ensures of_type { (E : Env) (t : Typ) (u v : Term) → OfType E t u → OfType E t v → u ≡ v }
    ensures form { (E : Env) (l : TypeLayer) (u v : Term) → OfForm E l u → OfForm E l v → u ≡ v }
    ensures signature { (E : Env) (ds : List ParameterDecl) (r : Option FuncResult) (g h : Signature) → OfSignature E ds r g → OfSignature E ds r h → g ≡ h }
    ensures parameters { (E : Env) (ds : List ParameterDecl) (ts us : List Term) (v w : Bool) → OfParameters E ds ts v → OfParameters E ds us w → (ts ≡ us) × (v ≡ w) }
    ensures results { (E : Env) (l : ResultLayer) (ts us : List Term) → OfResult E l ts → OfResult E l us → ts ≡ us }
    ensures fields { (E : Env) (ds : List FieldDecl) (fs gs : List Field) → OfFields E ds fs → OfFields E ds gs → fs ≡ gs }
    ensures methods { (E : Env) (xs : List InterfaceElem) (ms ns : List Method) → OfMethods E xs ms → OfMethods E xs ns → ms ≡ ns }
{}

/// What an expression is and meets in an environment holds in one that has what it has, and may have more.
pub fn grow()
    ensures whole { (E F : Env) (e : Expr) (o : Operand) → Grows E F → HasOperand E e o → HasOperand F e o }
    ensures expression { (E F : Env) (e : Expr) (o : Operand) → Grows E F → Has E e o → Has F e o }
    ensures posts { (E F : Env) (o r : Operand) (xs : List Post) → Grows E F → HasPosts E o xs r → HasPosts F o xs r }
    ensures builtin { (E F : Env) (f : Predeclared) (es : List Expr) (dots : Bool) (r : Operand) → Grows E F → HasBuiltin E f es dots r → HasBuiltin F f es dots r }
    ensures elements { (E F : Env) (t : Term) (xs : List Element) → Grows E F → HasElements E t xs → HasElements F t xs }
    ensures whole_type { (E F : Env) (t : Typ) (u : Term) → Grows E F → IsType E t u → IsType F t u }
    ensures of_type { (E F : Env) (t : Typ) (u : Term) → Grows E F → OfType E t u → OfType F t u }
    ensures signature { (E F : Env) (ds : List ParameterDecl) (r : Option FuncResult) (g : Signature) → Grows E F → OfSignature E ds r g → OfSignature F ds r g }
    ensures meets { (E F : Env) (at : Node) → Grows E F → Meets E at → Meets F at }
{}

/// What is underneath a type that has its entry, what a selector finds and how types relate is the same in an
/// environment that has what another has.
pub fn grow_types()
    ensures underneath { (E F : Env) (t : Term) → Grows E F → Entered E t → under E.table t ≡ under F.table t }
    ensures entered { (E F : Env) (t : Term) → Grows E F → Entered E t → Entered F t }
    ensures found { (E F : Env) (s : Sel) (t : Term) (x : Ending) → Grows E F → Found E s t x → Found F s t x }
    ensures method { (E F : Env) (a : Bool) (t : Term) (s : Sel) (g : Signature) → Grows E F → HasMethod E a t s g → HasMethod F a t s g }
    ensures type_name { (E F : Env) (q : QualifiedName) (t : Term) → Grows E F → IsTypeName E q t → IsTypeName F q t }
    ensures implements { (E F : Env) (t u : Term) → Grows E F → Implements E t u → Implements F t u }
    ensures assignable { (E F : Env) (t u : Term) → Grows E F → Assignable E t u → Assignable F t u }
    ensures convertible { (E F : Env) (t u : Term) → Grows E F → Convertible E t u → Convertible F t u }
    ensures compares { (E F : Env) (t : Term) → Grows E F → Compares E t → Compares F t }
    ensures usable { (E F : Env) (o : Operand) (t : Term) → Grows E F → UsableAs E o t → UsableAs F o t }
{}

/// An environment has what it has itself, and what one has that another has which it has. Without the flag of
/// the profile it bars nothing more, so that what an expression or a type form is under the flag it is without.
pub fn growth()
    ensures same { (E : Env) → Grows E E }
    ensures twice { (E F G : Env) → Grows E F → Grows F G → Grows E G }
    ensures unflagged { (E : Env) → Grows E (unflagged E) }
    ensures expression { (E : Env) (e : Expr) (o : Operand) → HasOperand E e o → HasOperand (unflagged E) e o }
    ensures of_type { (E : Env) (t : Typ) (u : Term) → IsType E t u → IsType (unflagged E) t u }
{}

/// Where the constants that names mean have values of their kinds, the constant that an expression is has one.
pub fn kept_constants()
    ensures expression { (E : Env) (e : Expr) (c : ConstTerm) (v : Value) → ConstantsKept E → Has E e (constant_of c v) → IsKept E c v }
    ensures shape { (E : Env) (e : Expr) (o : Operand) → ConstantsKept E → Has E e o → ShapeKept E o.shape }
    ensures posts { (E : Env) (o r : Operand) (xs : List Post) → ConstantsKept E → ShapeKept E o.shape → HasPosts E o xs r → ShapeKept E r.shape }
{}

/// What an expression is depends on what it refers to alone: it is the same in an environment that has what a
/// closed region of another has, where the names in the expression are of the region, and the types that it is of
/// are of the region too.
pub fn closed_region()
    ensures cut { (E : Env) (R : Region) (e : Expr) (o : Operand) → IsClosed E R → RefersIn R (expression e) → HasOperand E e o → HasOperand (cut R E) e o }
    ensures operand { (E : Env) (R : Region) (e : Expr) (o : Operand) → IsClosed E R → RefersIn R (expression e) → HasOperand E e o → ShapeIn R o.shape }
    ensures expression { (E F : Env) (R : Region) (e : Expr) (o : Operand) → IsClosed E R → Grows (cut R E) F → RefersIn R (expression e) → HasOperand E e o → HasOperand F e o }
    ensures of_type { (E F : Env) (R : Region) (t : Typ) (u : Term) → IsClosed E R → Grows (cut R E) F → RefersIn R (type_node t) → IsType E t u → IsType F t u }
    ensures term { (E : Env) (R : Region) (t : Typ) (u : Term) → IsClosed E R → RefersIn R (type_node t) → IsType E t u → TermIn R u }
    ensures signature { (E F : Env) (R : Region) (g : Sig) (h : Signature) → IsClosed E R → Grows (cut R E) F → RefersIn R (signature_node g) → OfSignature E (out-Sig g).parameters (out-Sig g).result h → OfSignature F (out-Sig g).parameters (out-Sig g).result h }
    ensures signature_in { (E : Env) (R : Region) (g : Sig) (h : Signature) → IsClosed E R → RefersIn R (signature_node g) → OfSignature E (out-Sig g).parameters (out-Sig g).result h → SignatureIn R h }
    ensures meets { (E F : Env) (R : Region) (at : Node) → IsClosed E R → Grows (cut R E) F → RefersIn R at → Meets E at → Meets F at }
    ensures whole { (E : Env) (R : Region) → Grows (cut R E) E }
{}
