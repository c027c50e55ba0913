// The sizing program for those who send the reply on: a job from standard input, its reply as bytes. Everything else goes to standard error.
#![tactic(auto)]

fn main(rt: HostRuntime) {
    let mut input = [0u8; 65537];
    if let Ok(n) = console::read_input(&mut rt.stdin(), &mut rt.stderr(), &mut input) {
        let mut reply = [0u8; 616];
        let mut line = [0u8; 32];
        let lengths = output::reply(&input[..n], &mut reply, &mut line);
        console::write_output(&mut rt.stdout(), &mut rt.stderr(), &reply[..lengths.reply]);
        console::write_error(&mut rt.stderr(), &line[..lengths.line]);
    }
}
