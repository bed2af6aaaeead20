//! The command line, for clap.

ghost use Rattle.std.specs.Prelude.{◌≡◌, IfOk, codes, true, false};
ghost use Rattle.clap.specs.Words.{app_of, rule_of, with_subcommand};
ghost use Rattle.clap.specs.declared.builder.command.Command.TheViews.{out-Command as fields_of};
ghost use Rattle.html_job.specs.Line.{option_rule, flag_rule, inputs_rule, files_rule, page_app, errors_app, normalise_app, suite_app, empty_line, line};

use clap::{Arg, ArgAction, Command};
use std::alloc::{AllocError, Global};

/// `--NAME VALUE`
fn text_option<'a>(alloc: Global, name: &'a str, value: &'a str, help: &'a str) -> Arg<'a>
    ensures rule { rule_of result ≡ option_rule name.entry.now }
    ensures local { result.global ≡ false }
{
    Arg::new(alloc, name)
        .long(name)
        .value_name(value)
        .help(help)
}

/// The files of pages.
fn inputs<'a>(alloc: Global) -> Arg<'a>
    ensures rule { rule_of result ≡ inputs_rule }
    ensures local { result.global ≡ false }
{
    Arg::new(alloc, "INPUT").action(ArgAction::Append).help(
        "The page, or - for standard input; of several pages, each is shown under its name",
    )
}

/// One file or more.
fn files<'a>(alloc: Global) -> Arg<'a>
    ensures rule { rule_of result ≡ files_rule }
    ensures local { result.global ≡ false }
{
    Arg::new(alloc, "FILE")
        .action(ArgAction::Append)
        .required(true)
        .help("A file of test cases, in html5lib's form: .test for tokens, .dat for trees")
}

/// The file of named character references.
fn entities<'a>(alloc: Global) -> Arg<'a>
    ensures rule { rule_of result ≡ option_rule (codes "entities") }
    ensures local { result.global ≡ false }
{
    text_option(
        alloc,
        "entities",
        "FILE",
        "Named character references, as the standard publishes them in JSON; without it five names",
    )
}

/// The name of a fragment's context.
fn fragment<'a>(alloc: Global) -> Arg<'a>
    ensures rule { rule_of result ≡ option_rule (codes "fragment") }
    ensures local { result.global ≡ false }
{
    text_option(
        alloc,
        "fragment",
        "NAME",
        "Read the page as a fragment in an element of this name",
    )
}

/// The value of the context's attribute `encoding`.
fn context_encoding<'a>(alloc: Global) -> Arg<'a>
    ensures rule { rule_of result ≡ option_rule (codes "context-encoding") }
    ensures local { result.global ≡ false }
{
    text_option(
        alloc,
        "context-encoding",
        "VALUE",
        "The attribute encoding of a fragment's context, where that is a math annotation-xml",
    )
}

/// What is done with foreign content.
fn foreign<'a>(alloc: Global) -> Arg<'a>
    ensures rule { rule_of result ≡ option_rule (codes "foreign") }
    ensures local { result.global ≡ false }
{
    text_option(
        alloc,
        "foreign",
        "WHAT",
        "What is done with SVG and MathML: refuse the page, or parse them [default: refuse]",
    )
}

/// The most nodes of a page.
fn max_nodes<'a>(alloc: Global) -> Arg<'a>
    ensures rule { rule_of result ≡ option_rule (codes "max-nodes") }
    ensures local { result.global ≡ false }
{
    text_option(
        alloc,
        "max-nodes",
        "K",
        "Refuse a page of more than K nodes [default: no limit]",
    )
}

/// The most code points that nodes hold.
fn max_held<'a>(alloc: Global) -> Arg<'a>
    ensures rule { rule_of result ≡ option_rule (codes "max-held") }
    ensures local { result.global ≡ false }
{
    text_option(
        alloc,
        "max-held",
        "K",
        "Refuse a page whose nodes hold more than K code points [default: no limit]",
    )
}

/// The most code points of the input.
fn max_input<'a>(alloc: Global) -> Arg<'a>
    ensures rule { rule_of result ≡ option_rule (codes "max-input") }
    ensures local { result.global ≡ false }
{
    text_option(
        alloc,
        "max-input",
        "K",
        "Refuse an input of more than K code points [default and greatest: 268435456]",
    )
}

/// The most counted steps.
fn max_steps<'a>(alloc: Global) -> Arg<'a>
    ensures rule { rule_of result ≡ option_rule (codes "max-steps") }
    ensures local { result.global ≡ false }
{
    text_option(
        alloc,
        "max-steps",
        "K",
        "Refuse a page of more than K counted steps [default: no limit]",
    )
}

/// Whether places are told by lines and columns.
fn lines<'a>(alloc: Global) -> Arg<'a>
    ensures rule { rule_of result ≡ flag_rule (codes "lines") }
    ensures local { result.global ≡ false }
{
    Arg::new(alloc, "lines")
        .long("lines")
        .action(ArgAction::SetTrue)
        .help(
            "Tell each place by its line and column, from 1, in place of the code points before it",
        )
}

/// Whether more is told of what failed.
fn verbose<'a>(alloc: Global) -> Arg<'a>
    ensures rule { rule_of result ≡ flag_rule (codes "verbose") }
    ensures local { result.global ≡ false }
{
    Arg::new(alloc, "verbose")
        .long("verbose")
        .action(ArgAction::SetTrue)
        .help("Show what was expected of each case that failed, and what came of it")
}

/// A command on pages, with an example of it.
fn page_command<'a>(
    alloc: Global,
    name: &'a str,
    about: &'a str,
    example: &'a str,
) -> Result<Command<'a>, AllocError>
    ensures app { IfOk result (λ c. app_of c ≡ page_app name.entry.now) }
    ensures local { IfOk result (λ c. (fields_of c).has_globals ≡ false) }
{
    Command::new(alloc, name)
        .about(about)
        .after_help(example)
        .arg(entities(alloc))?
        .arg(fragment(alloc))?
        .arg(context_encoding(alloc))?
        .arg(foreign(alloc))?
        .arg(max_nodes(alloc))?
        .arg(max_held(alloc))?
        .arg(max_input(alloc))?
        .arg(max_steps(alloc))?
        .arg(inputs(alloc))
}

/// The command that prints the parse errors of a page.
fn errors<'a>(alloc: Global) -> Result<Command<'a>, AllocError>
    ensures app { IfOk result (λ c. app_of c ≡ errors_app) }
    ensures local { IfOk result (λ c. (fields_of c).has_globals ≡ false) }
{
    page_command(
        alloc,
        "errors",
        "Print the parse errors of a page",
        "Example: html_cmd errors --lines page.html",
    )?
    .arg(lines(alloc))
}

/// The command that writes a page as HTML.
fn normalise<'a>(alloc: Global) -> Result<Command<'a>, AllocError>
    ensures app { IfOk result (λ c. app_of c ≡ normalise_app) }
    ensures local { IfOk result (λ c. (fields_of c).has_globals ≡ false) }
{
    let profile = text_option(
        alloc,
        "profile",
        "PROFILE",
        "What is escaped in the values of attributes: 1 is & \" and no-break spaces, 2 also < and > [default: 1]",
    );
    page_command(
        alloc,
        "normalise",
        "Write a page as HTML",
        "Example: html_cmd normalise --entities entities.json --foreign parse page.html > clean.html",
    )?
    .arg(profile)
}

/// The command on files of test cases.
fn suite<'a>(alloc: Global) -> Result<Command<'a>, AllocError>
    ensures app { IfOk result (λ c. app_of c ≡ suite_app) }
    ensures local { IfOk result (λ c. (fields_of c).has_globals ≡ false) }
{
    Command::new(alloc, "suite")
        .about("Run files of test cases")
        .after_help(
            "Example: html_cmd suite --entities entities.json --foreign parse tests/tree/*.dat",
        )
        .arg(entities(alloc))?
        .arg(foreign(alloc))?
        .arg(verbose(alloc))?
        .arg(files(alloc))
}

/// A program with a command on one page more.
fn with_page_command<'a>(
    program: Command<'a>,
    alloc: Global,
    name: &'a str,
    about: &'a str,
    example: &'a str,
) -> Result<Command<'a>, AllocError>
    requires local { (fields_of program).has_globals ≡ false }
    ensures app { IfOk result (λ c. app_of c ≡ with_subcommand (app_of program.entry) (page_app name.entry.now).top) }
    ensures local { IfOk result (λ c. (fields_of c).has_globals ≡ false) }
{
    program.subcommand(page_command(alloc, name, about, example)?)
}

/// The program, with no command.
fn empty_line<'a>(alloc: Global) -> Command<'a>
    ensures app { app_of result ≡ empty_line }
    ensures local { (fields_of result).has_globals ≡ false }
{
    Command::new(alloc, "html_cmd")
        .about("Reads HTML pages")
        .version("0.1.0")
        .subcommand_required(true)
        .disable_help_subcommand(true)
}

/// The whole command line.
pub(crate) fn line<'a>(alloc: Global) -> Result<Command<'a>, AllocError>
    ensures app { IfOk result (λ c. app_of c ≡ line) }
    ensures local { IfOk result (λ c. (fields_of c).has_globals ≡ false) }
{
    let program = empty_line(alloc);
    let program = with_page_command(
        program,
        alloc,
        "tree",
        "Print the tree of a page",
        "Example: html_cmd tree --fragment td --max-nodes 100000 page.html",
    )?;
    let program = program.subcommand(errors(alloc)?)?;
    let program = with_page_command(
        program,
        alloc,
        "audit",
        "Print what became of each token of a page",
        "Example: printf '<p>One<p>Two' | html_cmd audit",
    )?;
    let program = program.subcommand(normalise(alloc)?)?;
    let program = with_page_command(
        program,
        alloc,
        "counts",
        "Print how large a page is",
        "Example: html_cmd counts --max-steps 10000000 page.html",
    )?;
    program.subcommand(suite(alloc)?)
}
