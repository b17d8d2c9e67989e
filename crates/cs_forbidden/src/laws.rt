// Laws of what is forbidden. Each function does nothing: its contract is the law.
ghost use Rattle.std.specs.Prelude.{◌≡◌};
ghost use Rattle.cs_ast.specs.declared.expression.Expr.{Expr};
ghost use Rattle.cs_ast.specs.declared.expression.Stmt.{Stmt};
ghost use Rattle.cs_rules.specs.Trees as rules;
ghost use Rattle.cs_forbidden.specs.Roots.{nothing};
ghost use Rattle.cs_forbidden.specs.Trees as trees;

/// Where nothing is forbidden, an expression comes to what the rules of C# code say.
pub fn expressions_come_to_what_the_rules_say()
    ensures { (a : Expr) → trees.uses nothing a ≡ rules.uses a }
{}

/// The same of a statement.
pub fn statements_come_to_what_the_rules_say()
    ensures { (a : Stmt) → trees.statement nothing a ≡ rules.statement a }
{}
