// Source texts that are parsed, and written again.
use crate::programs::parse_program;
use lang_ast::{Program, Rest};
use lang_write::{forms_of, script_forms_of};
use std::alloc::Global;
use std::test::Fail;

// A program with each form of the language, and a script with each form.
const EVERY_FORM: &str = r#"(compose 1) ; a comment
(state a Int Structural -9223372036854775808)
(state b2_ Bool Never true)
(state c Text Structural "one \"two\"\n")
(state d Ints Append (ints 1 -2 9223372036854775807))
(state e Int Counter 0) (state f Int Largest -1)
(fun none ())
(fun row ((i Int) (t Text)) (node Row ((i i) (t t)) (node Gap ())))
(fun root ()
  (node Page ((title (join "a" (text (get a)))) (all (ints)))
    (call row (+ 1 2) "x")
    (key (get a) (call none)))
  (if (and (get b2_) (not (< 1 (* 2 (- 3 (/ 4 (% 5 6))))))) ((call none)) ())
  (for i (concat (range 0 3) (push (get d) (len (ints 1 2))))
    (let x (pick (or (= i 1) false) (at (get d) i) 0)
      (remember v ((k x)) (* k k) (node Cell ((v v)))))))
(do main
  (take s mutable global) (take r readonly s) (take take mutable take) (read s a) (read global nowhere)
  (write s a 7) (write global b2_ false) (write r c "x\n") (write s d (ints)) (write s d (ints 1 -2))
  (add s e -9223372036854775808) (add global nowhere 1)
  (apply s) (apply global) (dispose r) (dispose global)
  (frame) (frame (during)) (frame (during (take s mutable global) (add s e 1) (apply s))))
(do other (repeat 3) (repeat -9223372036854775808 (frame)) (read s f))
(do main (repeat 0 (write global a 1) (frame (during (read global a) (dispose s))) (frame)))
(do other)"#;

// Prints the trees that are written for a program and its script.
fn printed(alloc: Global, program: &Program, rest: &Rest) -> Result<Vec<u8>, Fail> {
    let mut written = sexp_text::print(alloc, &forms_of(alloc, program)?)?;
    let script = sexp_text::print(alloc, &script_forms_of(alloc, &rest.forms)?)?;
    written.extend_from_slice(&script)?;
    Ok(written)
}

// Parses a text, and prints the trees that are written for its program and its script.
fn written(alloc: Global, text: &[u8]) -> Result<Vec<u8>, Fail> {
    let (program, rest) = parse_program(alloc, text)?;
    printed(alloc, &program, &rest)
}

// Parses a text as trees, and prints them.
fn reprinted(alloc: Global, text: &[u8]) -> Result<Vec<u8>, Fail> {
    let trees = sexp_text::read(alloc, text)?;
    Ok(sexp_text::print(alloc, &trees)?)
}

#[test]
fn a_text_is_written_as_it_was_parsed(rt: HostRuntime) -> Result<(), Fail> {
    let text = EVERY_FORM.as_bytes();
    assert!(rt; written(rt.alloc(), text)? == reprinted(rt.alloc(), text)?);
    Ok(())
}
