// Laws of typed templates. Each function does nothing: its contract is the law.
ghost use Rattle.std.specs.Prelude.{◌≡◌, ℕ, List, [], ◌∷◌, map, Bool, false, Option, Some};
ghost use Rattle.cs_ast.specs.declared.code.Code.{Code};
ghost use Rattle.cs_ast.specs.declared.cs_type.CsType.{CsType};
ghost use Rattle.cs_ast.specs.declared.cs_type.CsType.TheVariants as t;
ghost use Rattle.cs_ast.specs.declared.expression.Body.{Body};
ghost use Rattle.cs_ast.specs.declared.expression.Expr.{Expr};
ghost use Rattle.cs_ast.specs.declared.scope.Named.{Named};
ghost use Rattle.cs_ast.specs.declared.scope.Scope.{Scope};
ghost use Rattle.cs_ast.specs.declared.value.Value.{Value};
ghost use Rattle.cs_ast.specs.declared.value.Value.TheVariants as v;
ghost use Rattle.cs_effects.specs.declared.deed.Deed.{Deed};
ghost use Rattle.cs_effects.specs.Deeds.{of_body, of_expr};
ghost use Rattle.cs_forbidden.specs.declared.forbidden.Forbidden.{Forbidden};
ghost use Rattle.cs_forbidden.specs.Roots.{nothing};
ghost use Rattle.cs_forbidden.specs.Trees as forbidding;
ghost use Rattle.cs_meaning.specs.Meaning.{setting};
ghost use Rattle.cs_meaning.specs.State.{Fields, State};
ghost use Rattle.cs_rules.specs.Judged.{fine};
ghost use Rattle.cs_rules.specs.Trees.{value_in};
ghost use Rattle.cs_typing.specs.Types.{Types, Signature};
ghost use Rattle.cs_typing.specs.Expressions.{Surroundings};
ghost use Rattle.cs_typing.specs.Bodies.{BodiesHave};
ghost use Rattle.cs_typing.specs.Settings.{SettingHas};
ghost use Rattle.cs_typing.specs.States.{FieldsHave, Keeps};
ghost use Rattle.cs_typing.specs.Values.{ValueHas};
ghost use Rattle.drawing_meaning.specs.Acts.{Act, all_siblings};
ghost use Rattle.drawing_meaning.specs.Drawing.{Drawing, IsDrawn};
ghost use Rattle.drawing_meaning.specs.Shows.{stage_at};
ghost use Rattle.drawing_meaning.specs.Stages.{Stage};
ghost use Rattle.frame_core.specs.declared.item.Item.{Item};
ghost use Rattle.page_meaning.specs.Fresh.{Shown, items_shown, fresh_alone, of_items};
ghost use Rattle.page_meaning.specs.Initial.{no_fields, fields_of, initial_fields};
ghost use Rattle.page_meaning.specs.Items.{component_acts, bodies, templates, items};
ghost use Rattle.page_meaning.specs.ProgramTypes.{program_types};
ghost use Rattle.page_meaning.specs.Parts as page;
ghost use Rattle.page_meaning.specs.Resolved.{Placing, place_at};
ghost use Rattle.razor_ast.specs.declared.component.Component.{Component};
ghost use Rattle.razor_ast.specs.declared.node.TNode.{TNode};
ghost use Rattle.razor_rules.specs.Bodies.{judged_body};
ghost use Rattle.razor_rules.specs.declared.ground.Ground.{Ground};
ghost use Rattle.razor_rules.specs.Parts as rule;
ghost use Rattle.razor_rules.specs.Programs.{home_of, IsSpelled, IsAccepted};
ghost use Rattle.razor_rules.specs.Scopes.{Home};
ghost use Rattle.razor_rules.specs.Templates.{part_of};
ghost use Rattle.page_typing.specs.Narrowing.{at_names, Narrows, Follows, SameValue, Both};
ghost use Rattle.page_typing.specs.Drawings.{DrawnFits, DrawingHas, event_argument, AreWhole, ItemsDrawn, OutputDrawn, StageHas};
ghost use Rattle.page_typing.specs.Acts.{ActHas, ActsHave};
ghost use Rattle.page_typing.specs.Templates.{TemplateHas, TemplatesHave};
ghost use Rattle.page_typing.specs.Formed.{ContentFormed};
ghost use Rattle.page_typing.specs.Handlers.{RunsAmong};
ghost use Rattle.page_typing.specs.Homes.{surroundings, HomeFits};
ghost use Rattle.page_typing.specs.Numbering.{Rises};
ghost use Rattle.page_typing.specs.Pages.{NoTags, NoParameters, ValuesBegun, IsAlone, IsShown, one_instance};
ghost use Rattle.page_typing.specs.Resolving.{Resolved};
ghost use Rattle.page_typing.specs.TemplateScopes.{TemplateScope};

/// A part of a template with types is not stuck: it gives items or a fault, and the locals behind it have the types that it says.
/// A `break` leads out of it only where one may.
pub fn typed_parts_are_never_stuck()
    ensures { (at : Surroundings) (components : Bool) (breaks : Bool) (locals : List CsType) (inner : List CsType) (act : Act) (stage : Stage) (d : Drawing)
        → StageHas at components stage → ActHas at components breaks locals inner act → DrawingHas at.types locals d
        → IsDrawn (act stage d) × DrawnFits (OutputDrawn at.types components breaks locals inner) (act stage d) }
{}

/// A template that keeps to its signature is not stuck, for an instance of its component that is there, over locals of its types,
/// however deep the calls are; fragments in it show what the templates of their receivers make.
pub fn typed_templates_are_never_stuck()
    ensures { (types : Types) (components : Bool) (parameters : Fields) (bodies : List (ℕ × Code)) (templates : ℕ → Option (List Act)) (template : Signature) (acts : List Act) (who : ℕ) (calls : ℕ) (depth : ℕ) (d : Drawing)
        → FieldsHave types types.parameters parameters → BodiesHave types bodies → TemplatesHave types components templates
        → types.instances who ≡ Some template.component → TemplateHas types components template acts → DrawingHas types template.locals d
        → IsDrawn (all_siblings acts (stage_at parameters bodies templates who calls depth) d) }
{}

/// Items that no component is part of, with handlers of their types, show a page, whatever was shown before them.
pub fn items_without_components_show_a_page()
    ensures { (types : Types) (born : ℕ) (items : List Item) → AreWhole types items → (given : ℕ) → (it : Shown) × (items_shown born items given ≡ Some it) }
{}

/// An expression that breaks no rule where some things are forbidden breaks none where nothing is, in each scope in which what it
/// uses means the same; it has the same type there.
pub fn expressions_stay_fine_where_their_names_mean_the_same()
    ensures { (a : Expr) (f : Forbidden) (s : Scope) (others : List Named) (locals : Deed → List (List ℕ))
        → Narrows (λ deed. (of_expr deed a).done) locals s.names others → Follows SameValue (forbidding.value_in f s a) (value_in (at_names others s) a) }
{}

/// The same of the body of a method or a lambda.
pub fn bodies_stay_fine_where_their_names_mean_the_same()
    ensures { (body : Body) (f : Forbidden) (s : Scope) (others : List Named) (locals : Deed → List (List ℕ))
        → Narrows (λ deed. of_body deed body) locals s.names others → Follows Both (judged_body f s body) (judged_body nothing (at_names others s) body) }
{}

/// The template of a component, without tags of components, that breaks no rule comes to parts with types, and the bodies and
/// fragments that it places keep to their signatures, where the types know these.
pub fn templates_that_break_no_rule_have_types()
    ensures { (home : Home) (types : Types) (components : Bool) → HomeFits types home → (n : ℕ) (m : ℕ) (nodes : List TNode) (g : Ground)
        → ContentFormed n m nodes → TemplateScope home g.scope [] → rule.in_order (map (part_of home) nodes) g ≡ []
        → Resolved types components (λ all. ActsHave (surroundings types home) components false [] [] all) (page.in_order (map page.part_of nodes) home g.scope) }
{}

/// What a template places has rising numbers, from that of its first part on.
pub fn numbers_of_placed_bodies_rise()
    ensures { (home : Home) (n : ℕ) (m : ℕ) (nodes : List TNode) (s : Scope) → ContentFormed n m nodes
        → Rises (place_at home n) (place_at home m) (page.in_order (map page.part_of nodes) home s) }
{}

/// A component that a file spells, without tags of components and without parameters, is formed as the laws of templates ask.
pub fn spelled_components_are_formed()
    ensures { (component : Component) → IsSpelled component → NoTags component.nodes → NoParameters component.members → IsAlone component }
{}

/// An accepted program of one component, without tags of components and without parameters, shows a page, or a fault ends it.
pub fn accepted_components_alone_show_a_page()
    ensures { (component : Component) → IsAccepted (component ∷ []) → NoTags component.nodes → NoParameters component.members → IsShown (fresh_alone component) }
{}

/// The template of such a component comes to something, and all its methods do.
pub fn accepted_components_alone_come_to_acts()
    ensures { (component : Component) → IsAccepted (component ∷ []) → NoTags component.nodes → NoParameters component.members
        → (it : Placing (List Act)) × (component_acts (home_of (component ∷ []) 0 component) component ≡ fine it) }
{}

/// The initial values of its own fields have their types, or a fault ends them.
pub fn fields_of_accepted_components_alone_begin_with_their_types()
    ensures { (component : Component) → IsAccepted (component ∷ []) → NoTags component.nodes → NoParameters component.members
        → ValuesBegun (λ values. FieldsHave (program_types (component ∷ []) one_instance) (program_types (component ∷ []) one_instance).fields (fields_of 1 values)) (initial_fields (home_of (component ∷ []) 0 component) 1 component.members) }
{}

/// What its code runs with keeps to the types, however deep the calls are: by the laws of typed code, none of its bodies is stuck.
pub fn code_of_accepted_components_alone_runs_among_its_types()
    ensures { (component : Component) → IsAccepted (component ∷ []) → NoTags component.nodes → NoParameters component.members
        → (calls : ℕ) → SettingHas (record { types = program_types (component ∷ []) one_instance; component = 0 }) (setting 1 no_fields (bodies (component ∷ [])) calls) }
{}

/// The bodies and the templates of such a program keep to their signatures.
pub fn accepted_components_alone_keep_to_their_types()
    ensures { (component : Component) → IsAccepted (component ∷ []) → NoTags component.nodes → NoParameters component.members
        → BodiesHave (program_types (component ∷ []) one_instance) (bodies (component ∷ [])) × TemplatesHave (program_types (component ∷ []) one_instance) false (templates (component ∷ [])) }
{}

/// Such a program shows a page, or a fault ends it, over all own fields that have their types, as they are after events. Its
/// handlers are callbacks of the instance, which take what their events hand over.
pub fn accepted_components_alone_show_pages_over_their_fields()
    ensures { (component : Component) → IsAccepted (component ∷ []) → NoTags component.nodes → NoParameters component.members
        → (fields : Fields) (depth : ℕ) → FieldsHave (program_types (component ∷ []) one_instance) (program_types (component ∷ []) one_instance).fields fields
        → IsShown (of_items (items (component ∷ []) no_fields fields 0 component 1 depth))
        × DrawnFits (λ all d. AreWhole (program_types (component ∷ []) one_instance) all) (items (component ∷ []) no_fields fields 0 component 1 depth) }
{}

/// A handler of a page, run over what its event hands over, is never stuck: a value or a fault ends it, and what outlives it keeps
/// its types.
pub fn handlers_with_types_are_never_stuck()
    ensures { (types : Types) (parameters : Fields) (bodies : List (ℕ × Code)) (name : List ℕ) (who : ℕ) (place : ℕ) (captures : List Value) (given : Value) (calls : ℕ) (s : State)
        → FieldsHave types types.parameters parameters → BodiesHave types bodies
        → ValueHas types (t.Callback (Some (event_argument name))) (v.Callback who place captures) → ValueHas types (event_argument name) given → Keeps types s
        → RunsAmong types (setting who parameters bodies calls) place captures given s }
{}
