mod mailbox;
