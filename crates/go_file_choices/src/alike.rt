//! Platforms that choose the same files of trees.
ghost use Rattle.std.specs.Prelude.{◌≡◌, ◌<◌, IfOk, OnOk, length};
ghost use Rattle.std.specs.List.{list_all};
ghost use Rattle.std.specs.Option.{option_copied};
ghost use Rattle.go_file_choices.specs.AlikePlatforms.{AreFirsts, files_of, old_files};
ghost use Rattle.go_file_choices.specs.inner.Questions.{AreFirstsBy, AreQuestions, AsksAlso, IsFirstBy, are_alike_by, is_answered_alike};

use crate::questions::{Question, ask, is_answered_alike};
use go_base::list::List;
use go_base::memory::NoMemory;
use go_model::files::platform::Platform;
use go_model::files::tree::Tree;
use std::alloc::Global;

fn ask_old<'a>(
    alloc: Global,
    questions: &mut List<Question<'a>>,
    old_tree: Option<&'a Tree>,
) -> Result<(), NoMemory>
    ensures { OnOk result (AsksAlso (old_files (option_copied old_tree.entry)) questions.old questions.new) }
{
    match old_tree {
        None => Ok(()),
        Some(tree) => ask(alloc, questions, tree.files.items()),
    }
}

fn questions_of<'a>(
    alloc: Global,
    old_tree: Option<&'a Tree>,
    tree: &'a Tree,
    std_tree: &'a Tree,
) -> Result<List<Question<'a>>, NoMemory>
    ensures { IfOk result (AreQuestions (files_of (option_copied old_tree.entry) tree.now std_tree.now)) }
{
    let mut questions = List::new(alloc);
    ask_old(alloc, &mut questions, old_tree)?;
    ask(alloc, &mut questions, tree.files.items())?;
    ask(alloc, &mut questions, std_tree.files.items())?;
    Ok(questions)
}

fn are_answered_alike(p: Platform, q: Platform, questions: &[Question<'_>]) -> bool
    ensures { result ≡ list_all (is_answered_alike p q) questions.now }
{
    questions
        .iter()
        .all(|question| is_answered_alike(p, q, question))
}

fn are_alike(p: Platform, q: Platform, questions: &[Question<'_>]) -> bool
    ensures { result ≡ are_alike_by questions.now p q }
{
    p.int_bits() == q.int_bits() && are_answered_alike(p, q, questions)
}

// The number of the first platform that answers like that of the number.
fn first_of(platforms: &[Platform], number: usize, questions: &[Question<'_>]) -> usize
    requires { number < length platforms.now }
    ensures { IsFirstBy questions.now platforms.now number result }
{
    let platform = platforms[number];
    for earlier in 0..number {
        if are_alike(platforms[earlier], platform, questions) {
            return earlier;
        }
    }
    number
}

fn firsts_by(
    alloc: Global,
    platforms: &[Platform],
    questions: &[Question<'_>],
) -> Result<List<usize>, NoMemory>
    ensures { IfOk result (AreFirstsBy questions.now platforms.now) }
{
    let mut firsts = List::new(alloc);
    for number in 0..platforms.len() {
        firsts.push(first_of(platforms, number, questions))?;
    }
    Ok(firsts)
}

/// For each of the platforms, the number of the first of them that is alike: `int` has as many bits on both, and of each file of the
/// trees both allow the name or neither does, and both choose it by its header or neither does. The header of each file is read once
/// for all platforms, and none where there is only one.
pub fn first_alike(
    alloc: Global,
    old_tree: Option<&Tree>,
    tree: &Tree,
    std_tree: &Tree,
    platforms: &[Platform],
) -> Result<List<usize>, NoMemory>
    ensures { IfOk result (AreFirsts (files_of (option_copied old_tree.entry) tree.now std_tree.now) platforms.now) }
{
    if platforms.len() < 2 {
        return firsts_by(alloc, platforms, &[]);
    }
    let questions = questions_of(alloc, old_tree, tree, std_tree)?;
    firsts_by(alloc, platforms, questions.items())
}
