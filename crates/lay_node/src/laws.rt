//! The theorems about nodes. (No code runs.)
ghost use Rattle.std.specs.Prelude.{◌≡◌, ℕ, Bool, List};
ghost use Rattle.lay_token.specs.declared.token.Token.{Token};
ghost use Rattle.lay_node.specs.nodes.Attr.{about_attr};
ghost use Rattle.lay_node.specs.nodes.Call.{about_call, about_group};
ghost use Rattle.lay_node.specs.nodes.Facts.{Front, ToldFront, by_itself};
ghost use Rattle.lay_node.specs.nodes.Functions.{about_fn_head};
ghost use Rattle.lay_node.specs.nodes.Generics.{GenericsAt, GenericsFront};
ghost use Rattle.lay_node.specs.nodes.Heads.{TraitHeadAt, TraitHeadFront, about_alias, about_enum, about_extern_crate, about_impl_head, about_struct, about_union, about_value_head, headed};
ghost use Rattle.lay_node.specs.nodes.Patterns.{PatFront, about_pat};
ghost use Rattle.lay_node.specs.nodes.SimplePath.{about_simple_path};
ghost use Rattle.lay_node.specs.nodes.Types.{BoundsFront, TypeFront, about_args, about_path, about_type, alone, in_style};
ghost use Rattle.lay_node.specs.nodes.Use.{about_use};
ghost use Rattle.lay_node.specs.nodes.Vis.{about_vis};
ghost use Rattle.lay_node.specs.nodes.Where.{WheresAt, WheresFront};
ghost use Rattle.lay_node.specs.reader.Attr.{attribute};
ghost use Rattle.lay_node.specs.reader.Call.{call};
ghost use Rattle.lay_node.specs.reader.Exact.{Exact, needless};
ghost use Rattle.lay_node.specs.reader.Functions.{fn_head, head_at};
ghost use Rattle.lay_node.specs.reader.Generics.{generics_at};
ghost use Rattle.lay_node.specs.reader.Heads.{alias, enum, extern_crate, impl_head, struct, trait_head, union, value_head};
ghost use Rattle.lay_node.specs.reader.Patterns.{pat_at};
ghost use Rattle.lay_node.specs.reader.SimplePath.{simple_path};
ghost use Rattle.lay_node.specs.reader.Tokens.{group};
ghost use Rattle.lay_node.specs.reader.Types.{args_at, bounds_at, path_at, type_at};
ghost use Rattle.lay_node.specs.reader.Use.{use_at};
ghost use Rattle.lay_node.specs.reader.Vis.{visibility};
ghost use Rattle.lay_node.specs.reader.Where.{wheres_at};
ghost use Rattle.lay_node.specs.declared.attr.Attr.{Attr};
ghost use Rattle.lay_node.specs.declared.functions.FnHead.{FnHead};
ghost use Rattle.lay_node.specs.declared.generics.Generics.{Generics};
ghost use Rattle.lay_node.specs.declared.generics.Wheres.{Wheres};
ghost use Rattle.lay_node.specs.declared.heads.Alias.{Alias};
ghost use Rattle.lay_node.specs.declared.heads.Enum.{Enum};
ghost use Rattle.lay_node.specs.declared.heads.ExternCrate.{ExternCrate};
ghost use Rattle.lay_node.specs.declared.heads.ImplHead.{ImplHead};
ghost use Rattle.lay_node.specs.declared.heads.Site.{Site};
ghost use Rattle.lay_node.specs.declared.heads.Struct.{Struct};
ghost use Rattle.lay_node.specs.declared.heads.TraitHead.{TraitHead};
ghost use Rattle.lay_node.specs.declared.heads.Union.{Union};
ghost use Rattle.lay_node.specs.declared.heads.ValueHead.{ValueHead};
ghost use Rattle.lay_node.specs.declared.patterns.Pat.{Pat};
ghost use Rattle.lay_node.specs.declared.patterns.PatPlace.{PatPlace};
ghost use Rattle.lay_node.specs.declared.simple_path.SimplePath.{SimplePath};
ghost use Rattle.lay_node.specs.declared.tokens.Group.{Group};
ghost use Rattle.lay_node.specs.declared.tokens.MacroCall.{MacroCall};
ghost use Rattle.lay_node.specs.declared.types.Args.{Args};
ghost use Rattle.lay_node.specs.declared.types.Bound.{Bound};
ghost use Rattle.lay_node.specs.declared.types.Path.{Path};
ghost use Rattle.lay_node.specs.declared.types.PathStyle.{PathStyle};
ghost use Rattle.lay_node.specs.declared.types.Ty.{Ty};
ghost use Rattle.lay_node.specs.declared.types.TypePlace.{TypePlace};
ghost use Rattle.lay_node.specs.declared.use_tree.UseTree.{UseTree};
ghost use Rattle.lay_node.specs.declared.vis.Vis.{Vis};

/// The readers of nodes read exactly the node that the next tokens spell, and none if they spell
/// none.
pub fn reading_law()
    ensures simple_paths { Exact (needless simple_path)
        (λ (x : SimplePath). Front (about_simple_path x)) }
    ensures groups { Exact (needless group) (λ (x : Group). Front (about_group x)) }
    ensures calls { Exact (needless call) (λ (x : MacroCall). Front (about_call x)) }
    ensures attrs { (inner : Bool) → Exact (needless (attribute inner))
        (λ (x : Attr). Front (about_attr inner x)) }
    ensures types { (place : TypePlace) → Exact (type_at place)
        (λ (x : Ty). TypeFront place (about_type x)) }
    ensures paths { (style : PathStyle) → Exact (path_at style)
        (λ (x : Path). Front (alone (about_path x style))) }
    ensures args { (style : PathStyle) → Exact (args_at style)
        (λ (x : Args). Front (alone (in_style style (about_args x)))) }
    ensures bounds { Exact bounds_at (λ (x : List Bound). BoundsFront x) }
    ensures generics { Exact generics_at (λ (x : Generics × Bool). GenericsAt x.1 x.0) }
    ensures wheres { Exact wheres_at (λ (x : Wheres × Bool). WheresAt x.1 x.0) }
    ensures pats { (place : PatPlace) → Exact (pat_at place)
        (λ (x : Pat). PatFront place (about_pat x)) }
    ensures use_trees { Exact use_at (λ (x : UseTree). Front (about_use x)) }
    ensures visibilities { Exact (needless visibility) (λ (x : Vis). ToldFront (about_vis x)) }
    ensures extern_crates { Exact (needless extern_crate)
        (λ (x : ExternCrate). ToldFront (headed (about_extern_crate x))) }
    ensures aliases { (site : Site) → Exact (head_at (λ w ts. alias site w.kinds ts))
        (λ (x : Alias). ToldFront (by_itself (headed (about_alias site x)))) }
    ensures structs { Exact (head_at (λ w ts. struct w.kinds ts))
        (λ (x : Struct). ToldFront (by_itself (headed (about_struct x)))) }
    ensures unions { Exact (head_at (λ w ts. union w.kinds ts))
        (λ (x : Union). ToldFront (by_itself (headed (about_union x)))) }
    ensures enums { Exact (head_at (λ w ts. enum w.kinds ts))
        (λ (x : Enum). ToldFront (by_itself (headed (about_enum x)))) }
    ensures fn_heads { (site : Site) → Exact (head_at (fn_head site))
        (λ (x : FnHead). ToldFront (by_itself (about_fn_head site x))) }
    ensures value_heads { Exact (head_at (λ w ts. value_head w.kinds ts))
        (λ (x : ValueHead). ToldFront (by_itself (about_value_head x))) }
    ensures trait_heads { Exact (head_at (λ w ts. trait_head w.kinds ts))
        (λ (x : TraitHead × (Bool × Bool)). TraitHeadAt x.1.0 x.1.1 x.0) }
    ensures impl_heads { Exact (head_at (λ w ts. impl_head w.kinds ts))
        (λ (x : ImplHead). ToldFront (by_itself (about_impl_head x))) }
{}

/// Of each kind at most one node, of one length in tokens, is spelled at a place.
pub fn node_law()
    ensures one_simple_path { (node other : SimplePath) (ts : List Token) (n m depth : ℕ)
        → Front (about_simple_path node) ts n depth → Front (about_simple_path other) ts m depth
        → (node ≡ other) × (n ≡ m) }
    ensures one_group { (node other : Group) (ts : List Token) (n m depth : ℕ)
        → Front (about_group node) ts n depth → Front (about_group other) ts m depth
        → (node ≡ other) × (n ≡ m) }
    ensures one_call { (node other : MacroCall) (ts : List Token) (n m depth : ℕ)
        → Front (about_call node) ts n depth → Front (about_call other) ts m depth
        → (node ≡ other) × (n ≡ m) }
    ensures one_attr { (node other : Attr) (inner : Bool) (ts : List Token) (n m depth : ℕ)
        → Front (about_attr inner node) ts n depth → Front (about_attr inner other) ts m depth
        → (node ≡ other) × (n ≡ m) }
    ensures one_type { (node other : Ty) (place : TypePlace) (ts : List Token) (n m depth : ℕ)
        → TypeFront place (about_type node) ts n depth
        → TypeFront place (about_type other) ts m depth → (node ≡ other) × (n ≡ m) }
    ensures one_path { (node other : Path) (style : PathStyle) (ts : List Token) (n m depth : ℕ)
        → Front (alone (about_path node style)) ts n depth
        → Front (alone (about_path other style)) ts m depth
        → (node ≡ other) × (n ≡ m) }
    ensures one_args { (node other : Args) (style : PathStyle) (ts : List Token) (n m depth : ℕ)
        → Front (alone (in_style style (about_args node))) ts n depth
        → Front (alone (in_style style (about_args other))) ts m depth
        → (node ≡ other) × (n ≡ m) }
    ensures one_bounds { (nodes others : List Bound) (ts : List Token) (n m depth : ℕ)
        → BoundsFront nodes ts n depth → BoundsFront others ts m depth
        → (nodes ≡ others) × (n ≡ m) }
    ensures one_generics { (node other : Generics) (ts : List Token) (n m depth : ℕ)
        → GenericsFront node ts n depth → GenericsFront other ts m depth
        → (node ≡ other) × (n ≡ m) }
    ensures one_wheres { (node other : Wheres) (ts : List Token) (n m depth : ℕ)
        → WheresFront node ts n depth → WheresFront other ts m depth → (node ≡ other) × (n ≡ m) }
    ensures one_pat { (node other : Pat) (place : PatPlace) (ts : List Token) (n m depth : ℕ)
        → PatFront place (about_pat node) ts n depth → PatFront place (about_pat other) ts m depth
        → (node ≡ other) × (n ≡ m) }
    ensures one_use { (node other : UseTree) (ts : List Token) (n m depth : ℕ)
        → Front (about_use node) ts n depth → Front (about_use other) ts m depth
        → (node ≡ other) × (n ≡ m) }
    ensures one_vis { (node other : Vis) (ts : List Token) (n m depth : ℕ)
        → ToldFront (about_vis node) ts n depth → ToldFront (about_vis other) ts m depth
        → (node ≡ other) × (n ≡ m) }
    ensures one_extern_crate { (node other : ExternCrate) (ts : List Token) (n m depth : ℕ)
        → ToldFront (headed (about_extern_crate node)) ts n depth
        → ToldFront (headed (about_extern_crate other)) ts m depth → (node ≡ other) × (n ≡ m) }
    ensures one_alias { (node other : Alias) (site : Site) (ts : List Token) (n m depth : ℕ)
        → ToldFront (by_itself (headed (about_alias site node))) ts n depth
        → ToldFront (by_itself (headed (about_alias site other))) ts m depth
        → (node ≡ other) × (n ≡ m) }
    ensures one_struct { (node other : Struct) (ts : List Token) (n m depth : ℕ)
        → ToldFront (by_itself (headed (about_struct node))) ts n depth
        → ToldFront (by_itself (headed (about_struct other))) ts m depth
        → (node ≡ other) × (n ≡ m) }
    ensures one_union { (node other : Union) (ts : List Token) (n m depth : ℕ)
        → ToldFront (by_itself (headed (about_union node))) ts n depth
        → ToldFront (by_itself (headed (about_union other))) ts m depth → (node ≡ other) × (n ≡ m) }
    ensures one_enum { (node other : Enum) (ts : List Token) (n m depth : ℕ)
        → ToldFront (by_itself (headed (about_enum node))) ts n depth
        → ToldFront (by_itself (headed (about_enum other))) ts m depth → (node ≡ other) × (n ≡ m) }
    ensures one_fn_head { (node other : FnHead) (site : Site) (ts : List Token) (n m depth : ℕ)
        → ToldFront (by_itself (about_fn_head site node)) ts n depth
        → ToldFront (by_itself (about_fn_head site other)) ts m depth → (node ≡ other) × (n ≡ m) }
    ensures one_value_head { (node other : ValueHead) (ts : List Token) (n m depth : ℕ)
        → ToldFront (by_itself (about_value_head node)) ts n depth
        → ToldFront (by_itself (about_value_head other)) ts m depth → (node ≡ other) × (n ≡ m) }
    ensures one_trait_head { (node other : TraitHead) (ts : List Token) (n m depth : ℕ)
        → TraitHeadFront node ts n depth → TraitHeadFront other ts m depth
        → (node ≡ other) × (n ≡ m) }
    ensures one_impl_head { (node other : ImplHead) (ts : List Token) (n m depth : ℕ)
        → ToldFront (by_itself (about_impl_head node)) ts n depth
        → ToldFront (by_itself (about_impl_head other)) ts m depth → (node ≡ other) × (n ≡ m) }
{}
