// That the rules of tree construction have one outcome (13.2.6), and parsing with them.
ghost use Rattle.html_laws.specs.Contents.{
  InputsHaveNoTemplateInItself,
  PagesHaveNoTemplateInItself,
  TreesHaveNoTemplateInItself,
};
ghost use Rattle.html_laws.specs.Elements.{
  InputsHaveOneBody,
  InputsHaveOneRoot,
  PagesHaveOneBody,
  PagesHaveOneRoot,
  TreesHaveOneBody,
  TreesHaveOneRoot,
};
ghost use Rattle.html_laws.specs.OnePage.{InputsHaveOnePage, InputsHaveOneTree, InputsHaveSameErrors};
ghost use Rattle.html_laws.specs.Outcomes.{PagesHaveOneTree, PlansHaveOneEnd, TokensHaveOneEnd};

/// A law: two runs of one plan for one token, and two runs of the rules over the same tokens, end alike, from states that differ in nothing but marks, counts
/// and what tells errors of end tags.
pub fn rules_have_one_outcome()
    ensures plans { PlansHaveOneEnd }
    ensures tokens { TokensHaveOneEnd }
{}

/// A law: the tokens of a page have one list of fates and one tree, marks and counts apart, whether foreign content is parsed or refused, in any context.
pub fn construction_has_one_outcome()
    ensures { PagesHaveOneTree }
{}

/// A law: an input has one list of tokens, one list of fates, the same errors of the tokenizer, and one tree, marks and counts apart, however it was cut, whether
/// foreign content is parsed or refused, in any context.
pub fn parsing_has_one_outcome()
    ensures page { InputsHaveOnePage }
    ensures errors { InputsHaveSameErrors }
    ensures tree { InputsHaveOneTree }
{}

/// A law: a page has one `html` element at most, clones apart, where foreign content is refused and is not the context; and so has the page of an input.
pub fn pages_have_one_root()
    ensures tokens { PagesHaveOneRoot }
    ensures page { InputsHaveOneRoot }
    ensures tree { TreesHaveOneRoot }
{}

/// A law: a page has one `body` element at most, clones apart and one that a frameset replaced among them, where foreign content is refused and is not the
/// context, and where no start tag comes in the text of an element; and so has the page of an input, where none can.
pub fn pages_have_one_body()
    ensures tokens { PagesHaveOneBody }
    ensures page { InputsHaveOneBody }
    ensures tree { TreesHaveOneBody }
{}

/// A law: no template stands in its own contents: neither in what the rules build of tokens, nor in the page of an input.
pub fn pages_have_no_template_in_itself()
    ensures tokens { PagesHaveNoTemplateInItself }
    ensures page { InputsHaveNoTemplateInItself }
    ensures tree { TreesHaveNoTemplateInItself }
{}
