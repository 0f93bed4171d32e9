// Generated programs and scripts.
use play_gen::generate;
use std::test::Fail;

#[test]
fn a_generated_script_has_the_steps_of_its_draws(rt: HostRuntime) -> Result<(), Fail> {
    // For number 1 the four rounds write `scale`, raise `best`, rotate `items` and write `scale`.
    let (program, script) = generate(rt.alloc(), 1, 4)?;
    assert!(rt; program.states().len() == 4);
    assert!(rt; program.functions().len() == 3);
    assert!(rt; script.actors.len() == 1);
    assert!(rt; script.forms[0].steps.items().len() == 1 + 2 + 4 + 2 + 2);
    Ok(())
}
