// Laws of typed programs. Each function does nothing: its contract is the law.
ghost use Rattle.std.specs.Prelude.{◌≡◌, ℕ, Bool, true, map, List, [], Option, Some, None, slice_get};
ghost use Rattle.std.specs.List.{flat_map};
ghost use Rattle.cs_ast.specs.declared.cs_type.CsType.{CsType};
ghost use Rattle.text_core.specs.declared.place.Place.{Place};
ghost use Rattle.cs_ast.specs.declared.identifier.Ident.{Ident};
ghost use Rattle.cs_ast.specs.declared.scope.Scope.{Scope};
ghost use Rattle.cs_ast.specs.declared.value.Value.{Value};
ghost use Rattle.cs_meaning.specs.State.{Fields};
ghost use Rattle.cs_typing.specs.Expressions.{Surroundings};
ghost use Rattle.cs_typing.specs.States.{FieldsHave};
ghost use Rattle.cs_typing.specs.Types.{Types};
ghost use Rattle.drawing_meaning.specs.Acts.{Act};
ghost use Rattle.drawing_meaning.specs.Drawing.{Drawing, IsDrawn};
ghost use Rattle.drawing_meaning.specs.Stages.{Stage};
ghost use Rattle.drawing_meaning.specs.Tags.{Gives, all_given};
ghost use Rattle.page_meaning.specs.Items.{items};
ghost use Rattle.page_meaning.specs.ProgramTypes.{program_types};
ghost use Rattle.page_meaning.specs.Parts as page;
ghost use Rattle.page_meaning.specs.Tags.{Target, attribute_gifts};
ghost use Rattle.page_typing.specs.Acts.{ActsHave};
ghost use Rattle.page_typing.specs.Drawings.{DrawnFits, DrawingHas, StageHas};
ghost use Rattle.page_typing.specs.Formed.{ContentFormed};
ghost use Rattle.page_typing.specs.Homes.{surroundings, HomeFits};
ghost use Rattle.page_typing.specs.Resolving.{Resolved};
ghost use Rattle.page_typing.specs.TemplateScopes.{TemplateScope};
ghost use Rattle.razor_ast.specs.declared.attribute.Attribute.{Attribute};
ghost use Rattle.razor_ast.specs.declared.component.Component.{Component};
ghost use Rattle.razor_ast.specs.declared.node.TNode.{TNode};
ghost use Rattle.razor_rules.specs.Grounds.{top};
ghost use Rattle.razor_rules.specs.Templates.{part_of};
ghost use Rattle.razor_rules.specs.declared.ground.Ground.{Ground};
ghost use Rattle.razor_rules.specs.Parameters.{Takes, component, tagged};
ghost use Rattle.razor_rules.specs.Programs.{home_of, BreaksFirst};
ghost use Rattle.razor_rules.specs.Scopes.{Home};
ghost use Rattle.razor_rules.specs.Parts as rule;
ghost use Rattle.razor_rules.specs.Tags.{attribute_rules, tag_rules};
ghost use Rattle.program_typing.specs.Programs.{AllKeep, AreFormed, AreSound, ProgramHas, Comes};
ghost use Rattle.program_typing.specs.Tags.{Parameters, GivesFit, SuppliedSo, AllFit, AttributesFormed, KeepsRules, IsTargetOf, IsComponent};

/// An instance of a component of a program that keeps to its types is not stuck, over own fields and parameters of their types: it
/// gives items or a fault, whatever fragments it is given.
pub fn instances_of_typed_programs_are_never_stuck()
    ensures { (types : Types) (components : List Component) → ProgramHas types components
        → (parameters fields : Fields) (position : ℕ) (component : Component) (who depth : ℕ) → slice_get components position ≡ Some component → types.instances who ≡ Some position
        → FieldsHave types types.parameters parameters → FieldsHave types types.fields fields
        → IsDrawn (items components parameters fields position component who depth) }
{}

/// A program keeps to its own types, whatever instances of it are there, where each of its components is sound.
pub fn programs_of_sound_components_keep_to_their_types()
    ensures { (components : List Component) (instances : ℕ → Option ℕ) → AreSound components → ProgramHas (program_types components instances) components }
{}

/// A tag supplies its component with values of the types of the parameters, where what it gives fits these.
pub fn tags_supply_values_of_the_types_of_parameters()
    ensures { (at : Surroundings) (components : Bool) (stage : Stage) → StageHas at components stage → (locals : List CsType) (parameters : Parameters) (all : List Gives) (key : Value) (d : Drawing)
        → GivesFit at locals parameters all → DrawingHas at.types locals d → DrawnFits (SuppliedSo at.types locals parameters) (all_given all stage key d) }
{}

/// The attributes of a component's tag that break no rule come to what fits the types of its parameters, where the page's
/// parameters are those of the rules.
pub fn attributes_of_tags_fit_the_types_of_parameters()
    ensures { (home : Home) (types : Types) (components : Bool) → HomeFits types home → (g : Ground) (locals : List CsType) → TemplateScope home g.scope locals
        → (takes : List Takes) (target : Target) (parameters : Parameters) → AllFit takes target parameters
        → (attributes : List Attribute) → AttributesFormed attributes → flat_map (λ (one : Attribute). attribute_rules (component takes) g one one.kind) attributes ≡ []
        → Resolved types components (GivesFit (surroundings types home) locals parameters) (attribute_gifts home g.scope target attributes) }
{}

/// The tag of a component that the rules know is that of a component of the program, whose parameters are those that the tag
/// takes, of the same types, where the members of all components break no rule.
pub fn tags_are_of_components_whose_parameters_fit()
    ensures { (components : List Component) (instances : ℕ → Option ℕ) → KeepsRules components
        → (position : ℕ) (own : Component) (s : Scope) (name : List ℕ) (attributes : List Attribute) (takes : List Takes)
        → tagged (home_of components position own) name ≡ Some (component takes) → IsTargetOf components (program_types components instances) s name attributes takes }
{}

/// The tag of a component without content that breaks no rule comes to a component of the program, with what fits the types of its
/// parameters.
pub fn tags_without_content_come_to_components()
    ensures { (home : Home) (types : Types) → HomeFits types home → (g : Ground) (locals : List CsType) → TemplateScope home g.scope locals
        → (number : ℕ) (place : Place) (name : Ident) (attributes : List Attribute) (takes : List Takes) (target : IsTargetOf home.components types g.scope name.name attributes takes)
        → (parts : List page.Part) (rule_parts : List rule.Part) → tagged home name.name ≡ Some (component takes) → AttributesFormed attributes → page.counted parts ≡ []
        → tag_rules (tagged home name.name) place name attributes rule_parts g ≡ []
        → Resolved types true (IsComponent (surroundings types home) locals number target.position) (page.component number place name attributes parts home g.scope) }
{}

/// What is the component of a tag is a part with types.
pub fn components_of_tags_have_types()
    ensures { (at : Surroundings) (breaks : Bool) (locals : List CsType) (number position : ℕ) (all : List Act) → IsComponent at locals number position all → ActsHave at true breaks locals locals all }
{}

/// A template without tags of components that breaks no rule comes to parts with types, with the numbers of its nodes.
pub fn templates_without_tags_come_to_parts_with_types()
    ensures { (home : Home) (impure : List ℕ) (m : ℕ) (nodes : List TNode) → ContentFormed 0 m nodes → rule.in_order (map (part_of home) nodes) (top home impure) ≡ [] → Comes home nodes }
{}

/// A program that breaks no rule breaks none in any of its components.
pub fn programs_break_no_rule_in_any_component()
    ensures { (components : List Component) → BreaksFirst components None → AllKeep components }
{}

/// The members of its components break none either, so that its tags are of components whose parameters fit.
pub fn members_of_components_break_no_rule()
    ensures { (components : List Component) → AllKeep components → KeepsRules components }
{}

/// A program that breaks no rule keeps to its own types, whatever instances are there, where its components are formed as files
/// spell them, without tags of components. They may have parameters.
pub fn programs_without_tags_keep_to_their_types()
    ensures { (components : List Component) (instances : ℕ → Option ℕ) → BreaksFirst components None → AreFormed components → ProgramHas (program_types components instances) components }
{}
