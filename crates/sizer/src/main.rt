// The sizing program: a job from standard input, its reply as text.
#![tactic(auto)]

fn main(rt: HostRuntime) {
    let mut input = [0u8; 65537];
    if let Ok(n) = console::read_input(&mut rt.stdin(), &mut rt.stderr(), &mut input) {
        let mut text = [0u8; 9216];
        let length = output::print(&input[..n], &mut text);
        console::write_output(&mut rt.stdout(), &mut rt.stderr(), &text[..length]);
    }
}
