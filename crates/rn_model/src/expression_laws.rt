//! Laws over expressions and conditions, each the contract of a function that does nothing.
ghost use Rattle.rn_model.specs.ExpressionLaws.{ValuesLookUp, TruthsLookUp, ValuesAreRenamed};
ghost use Rattle.rn_model.specs.ExpressionLaws.{TruthsStayRenamed, ValuesHaveKinds};
ghost use Rattle.rn_model.specs.ExpressionLaws.{KindsFitOperands, TruthsAreDefined};
ghost use Rattle.rn_model.specs.ExpressionLaws.{ActionsKeepKinds};
ghost use Rattle.rn_model.specs.AgreementLaws.{ExpressionsHaveKinds, AgreeingOperandsAreFit};
ghost use Rattle.rn_model.specs.AgreementLaws.{InscriptionsHaveValues, GuardsCompareValues};

/// The value of an expression and the truth of a condition depend on what their variables look up
/// to, on `this`, and, where `step()` stands in them, on the step.
pub fn expressions_look_up()
    ensures values { ValuesLookUp }
    ensures truths { TruthsLookUp }
{}

/// Where instances are renamed, the value of an expression is its value with its instances renamed;
/// and where the renaming can be undone, the truth of a condition stays.
pub fn expressions_are_renamed()
    ensures values { ValuesAreRenamed }
    ensures truths { TruthsStayRenamed }
{}

/// Where variables have values of their kinds, an expression with a kind has a value of it or none,
/// operators meet whole numbers and tails are lists, conditions are defined exactly where all that
/// they compare has a value, and actions keep this.
pub fn kinds_are_kept()
    ensures values { ValuesHaveKinds }
    ensures operands { KindsFitOperands }
    ensures truths { TruthsAreDefined }
    ensures actions { ActionsKeepKinds }
{}

/// In a good system each expression has a kind; and where a binding agrees, operators meet whole
/// numbers and tails are lists, each inscription has a value of its kind, and guards compare what
/// they may.
pub fn agreeing_values_have_kinds()
    ensures expressions { ExpressionsHaveKinds }
    ensures operands { AgreeingOperandsAreFit }
    ensures inscriptions { InscriptionsHaveValues }
    ensures guards { GuardsCompareValues }
{}
